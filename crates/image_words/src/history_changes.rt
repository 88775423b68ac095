//! A call of the history on the file of an image, and a trim.
ghost use Rattle.std.specs.Prelude.{◌≡◌, OnOk};
ghost use Rattle.host_interface.specs.Files.{KeepsOthers, KeepsOrSyncs, ReadsClaimed};
ghost use Rattle.image_words.specs.Histories.{HistoryEnds, RunsUnprinted, history_spelled, trim_script, unprinted};

use crate::history_lines::history_script;
use command_line::HistoryCall;
use host_interface::ImageFiles;
use image_jobs::{Failure, run_image};
use std::alloc::Global;

/// All that the image reaches is marked, all other data blocks are cleaned then, and it is synced.
const TRIM_SCRIPT: &[u8] = b"reclaim 18446744073709551615\nclean 18446744073709551615\nsync\n";

/// Carries out a call of the history on an image, which is claimed first, and syncs it: steps `count`
/// times, all of them or none. `word` is the name of a checkpoint, or for [`HistoryCall::Goto`] a
/// serial. Nothing is printed. Where it is refused the image stays as it was.
pub fn change_history<F: ImageFiles>(
    files: &mut F,
    alloc: Global,
    name: &str,
    call: HistoryCall,
    word: &str,
    count: u32,
) -> Result<(), Failure>
    ensures ends { HistoryEnds (history_spelled call word.now count) name.now (ReadsClaimed F.claims F.reads name.now) (F.held files.old) result (F.held files.new) }
    ensures synced { OnOk result (KeepsOrSyncs (F.held files.old) (F.held files.new) (F.synced files.new name.now)) }
    ensures others { KeepsOthers name.now (F.held files.old) (F.held files.new) }
{
    let script = match history_script(alloc, call, word, count) {
        Ok(script) => script,
        Err(failure) => return Err(failure),
    };
    run_unprinted(files, alloc, name, script.as_bytes())
}

/// Erases the data blocks of an image that no version and no checkpoint reaches. It is claimed first.
/// Nothing is printed. Where it is refused the image stays as it was.
pub fn trim_image<F: ImageFiles>(files: &mut F, alloc: Global, name: &str) -> Result<(), Failure>
    ensures ends { RunsUnprinted trim_script name.now (ReadsClaimed F.claims F.reads name.now) (F.held files.old) result (F.held files.new) }
    ensures synced { OnOk result (KeepsOrSyncs (F.held files.old) (F.held files.new) (F.synced files.new name.now)) }
    ensures others { KeepsOthers name.now (F.held files.old) (F.held files.new) }
{
    run_unprinted(files, alloc, name, TRIM_SCRIPT)
}

/// Runs a script on an image up to its first refused line, and prints no reply.
fn run_unprinted<F: ImageFiles>(
    files: &mut F,
    alloc: Global,
    name: &str,
    script: &[u8],
) -> Result<(), Failure>
    ensures ends { RunsUnprinted script.now name.now (ReadsClaimed F.claims F.reads name.now) (F.held files.old) result (F.held files.new) }
    ensures synced { OnOk result (KeepsOrSyncs (F.held files.old) (F.held files.new) (F.synced files.new name.now)) }
    ensures others { KeepsOthers name.now (F.held files.old) (F.held files.new) }
{
    let mut reader = script;
    let mut replies = Vec::new(alloc);
    match run_image(files, alloc, name, true, &mut reader, &mut replies) {
        Ok(()) => Ok(()),
        Err(failure) => Err(unprinted(failure)),
    }
}

/// What a failure of a script is told as, of which no reply is printed.
pub(crate) fn unprinted(failure: Failure) -> Failure
    ensures { result ≡ unprinted failure }
{
    match failure {
        Failure::Stopped(stop) => Failure::of_refusal(stop.refusal),
        Failure::Output => Failure::Memory,
        _ => failure,
    }
}
