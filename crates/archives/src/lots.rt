//! Things in lots.
ghost use Rattle.std.specs.Prelude.{◌≡◌, ◌++◌, IfOk, OnOk};
ghost use Rattle.put_lots.specs.Lots.{listed, lots_of};

use put_lots::{Taken, Thing, take_in};
use std::alloc::{AllocError, Global};

/// What is put of things, in order: those that may go together are put by one call.
pub fn lots_of(alloc: Global, things: Vec<Thing>) -> Result<Vec<Thing>, AllocError>
    ensures { IfOk result (λ lots. lots.items ≡ lots_of things.items) }
{
    let mut lots = Vec::new(alloc);
    let mut last = None;
    for thing in things {
        let taken = take_in(alloc, last, thing)?;
        last = Some(push_ready(&mut lots, taken)?);
    }
    push_some(&mut lots, last)?;
    Ok(lots)
}

/// Appends what is ready, and answers what waits.
fn push_ready(lots: &mut Vec<Thing>, taken: Taken) -> Result<Thing, AllocError>
    ensures lots { IfOk result (λ _. lots.new.items ≡ lots.old.items ++ listed taken.ready) }
    ensures last { IfOk result (λ last. last ≡ taken.last) }
{
    let Taken { ready, last } = taken;
    push_some(lots, ready)?;
    Ok(last)
}

/// Appends a thing, if there is one.
fn push_some(lots: &mut Vec<Thing>, thing: Option<Thing>) -> Result<(), AllocError>
    ensures { OnOk result (lots.new.items ≡ lots.old.items ++ listed thing) }
{
    match thing {
        Some(thing) => {
            lots.push(thing)?;
            Ok(())
        }
        None => Ok(()),
    }
}
