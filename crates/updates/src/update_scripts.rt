//! The script that brings the tree of one file system to that of another.
ghost use Rattle.std.specs.Prelude.{◌≡◌, ◌++◌, ◌∷◌, [], IfOk, OnOk, IfErr};
ghost use Rattle.fs_types.specs.declared.call.Call.{Call};
ghost use Rattle.history_machine.specs.Machine.{working_tree};
ghost use Rattle.inquiries.specs.Readings.{shown, IsUnchanged};
ghost use Rattle.updates.specs.Lines.{lines_of, update_text};
ghost use Rattle.updates.specs.Asked.{AreSmall, Untold};

use crate::changes::list_changes;
use crate::lines::print_call;
use crate::manner::Manner;
use flash_model::Flash;
use fs_types::{Bytes, Call, View};
use inquiries::TellFault;
use std::alloc::{AllocError, Global};
use undofs::Fs;

/// The lines of a script that bring the tree of one file system to that of another, both of which are only
/// read: one change group, in which what has gone is removed, what is new is written whole and a file of both
/// in this manner, and a `sync`.
///
/// [`TellFault::TooManyLines`] where a tree has too much ([`list_changes`]); else
/// [`fs_types::Fault::ReadFailed`], [`fs_types::Fault::PowerCut`] and [`fs_types::Fault::NoMemory`] may come.
pub fn tell_update<F: Flash, G: Flash>(
    alloc: Global,
    first: &mut Fs<'_, F>,
    second: &mut Fs<'_, G>,
    manner: Manner,
) -> Result<Bytes, TellFault>
    ensures first { IsUnchanged first.old first.new }
    ensures second { IsUnchanged second.old second.new }
    ensures small { OnOk result (AreSmall (working_tree (shown first.old)) (working_tree (shown second.old))) }
    ensures ok { IfOk result (λ bytes. bytes ≡ update_text manner (working_tree (shown first.old)) (working_tree (shown second.old))) }
    ensures err { IfErr result (Untold (working_tree (shown first.old)) (working_tree (shown second.old)) first.old second.old first.new second.new) }
{
    let changes = list_changes(alloc, first, second, &View::Present, manner)?;
    Ok(print_group(alloc, changes)?)
}

/// The lines of changes in one group, which is brought to the flash.
fn print_group(alloc: Global, changes: Vec<Call>) -> Result<Bytes, AllocError>
    ensures { IfOk result (λ bytes. bytes ≡ lines_of (Call.Begin ∷ (changes.items ++ Call.End ∷ Call.Sync ∷ []))) }
{
    let mut out = Vec::new(alloc);
    out.extend_from_slice(b"begin\n")?;
    print_calls(&mut out, changes)?;
    out.extend_from_slice(b"end\nsync\n")?;
    Ok(Bytes::from_vec(out))
}

/// Appends the line of each call. A call takes no memory once its line is there.
fn print_calls(out: &mut Vec<u8>, calls: Vec<Call>) -> Result<(), AllocError>
    ensures { OnOk result (out.new.items ≡ out.old.items ++ lines_of calls.items) }
{
    for call in calls {
        print_call(out, &call)?;
    }
    Ok(())
}
