//! What may be asked of a flash and of the system on it: events, and what its history holds.
ghost use Rattle.std.specs.Prelude.{◌≡◌, IfSome};
ghost use Rattle.system.specs.Systems.{IsSystem};
ghost use Rattle.undofs.specs.Asks.{ServesAsk};
ghost use Rattle.fs_types.specs.declared.ask.Ask.{Ask};

use crate::sessions::serve;
use flash_model::Flash;
use fs_types::{Answer, Ask};
use std::alloc::Global;
use system::{HistorySpace, System};

/// What is told to it.
#[derive(Debug, Drop)]
pub enum Told {
    /// The answer to an event; or how something else is refused, or that no system is mounted.
    Answer(Answer),
    /// What each version and each checkpoint keeps.
    Space(HistorySpace),
    /// So many versions were forgotten.
    Forgot(u64),
}

/// Does what is asked, on a flash and on the system that is mounted on it, if one is ([`serve`]). All
/// but events is answered [`Answer::Unmounted`] where none is.
pub fn serve_ask<F: Flash>(
    alloc: Global,
    flash: &mut F,
    system: &mut Option<System>,
    ask: &Ask,
) -> Told
    requires { IfSome system.old (IsSystem (F.device flash.old)) }
    ensures mounted { IfSome system.new (IsSystem (F.device flash.new)) }
    ensures serves { ServesAsk (F.device flash.old) system.old ask.now result (F.device flash.new) system.new }
{
    match ask {
        Ask::Event(event) => Told::Answer(serve(alloc, flash, system, event)),
        Ask::Space => serve_space(alloc, flash, system),
        Ask::ForgetFree(blocks) => serve_forget(alloc, flash, system, *blocks),
    }
}

/// Tells what the versions and checkpoints keep of the system that is mounted, if one is.
fn serve_space<F: Flash>(alloc: Global, flash: &mut F, system: &mut Option<System>) -> Told
    requires { IfSome system.old (IsSystem (F.device flash.old)) }
    ensures mounted { IfSome system.new (IsSystem (F.device flash.new)) }
    ensures serves { ServesAsk (F.device flash.old) system.old Ask.Space result (F.device flash.new) system.new }
{
    let Some(system) = system else {
        return Told::Answer(Answer::Unmounted);
    };
    match system.space_by_version(alloc, flash) {
        Ok(space) => Told::Space(space),
        Err(fault) => Told::Answer(Answer::Refused(fault)),
    }
}

/// Forgets versions of the system that is mounted, if one is.
fn serve_forget<F: Flash>(
    alloc: Global,
    flash: &mut F,
    system: &mut Option<System>,
    blocks: u64,
) -> Told
    requires { IfSome system.old (IsSystem (F.device flash.old)) }
    ensures mounted { IfSome system.new (IsSystem (F.device flash.new)) }
    ensures serves { ServesAsk (F.device flash.old) system.old (Ask.ForgetFree blocks) result (F.device flash.new) system.new }
{
    let Some(system) = system else {
        return Told::Answer(Answer::Unmounted);
    };
    match system.forget_until_free(alloc, flash, blocks) {
        Ok(count) => Told::Forgot(count),
        Err(fault) => Told::Answer(Answer::Refused(fault)),
    }
}
