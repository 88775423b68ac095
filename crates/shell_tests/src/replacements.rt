//! A file that is replaced in memory, with each call failing in turn.
use crate::memory_folder::{MemoryFolder, Step};
use file_replacement::{Unreplaced, replace};
use std::alloc::Global;
use std::test::Fail;

const OLD: [u8; 3] = [1, 2, 3];

const NEW: [u8; 5] = [4, 5, 6, 7, 8];

fn folder(alloc: Global, failing: Option<Step>) -> Result<MemoryFolder, Fail> {
    Ok(MemoryFolder {
        old: OLD.to_vec(alloc)?,
        bytes: Vec::new(alloc),
        has_new: false,
        is_filed: false,
        is_renamed: false,
        is_settled: false,
        has_failed: false,
        is_unremoved: false,
        most: 2,
        failing,
        keeps_new: false,
    })
}

/// A letter for what a replacement answers.
fn told(ended: &Result<(), Unreplaced>) -> char {
    match ended {
        Ok(()) => 'o',
        Err(Unreplaced::Unmade(_)) => 'm',
        Err(Unreplaced::Failed(_)) => 'f',
        Err(Unreplaced::Unsynced(_)) => 'u',
    }
}

#[test]
fn each_call_fails_in_turn(rt: HostRuntime) -> Result<(), Fail> {
    let alloc = rt.alloc();
    let cases = [
        (None, 'o'),
        (Some(Step::Make), 'm'),
        (Some(Step::Write), 'f'),
        (Some(Step::TakeMode), 'f'),
        (Some(Step::SyncFile), 'f'),
        (Some(Step::Rename), 'f'),
        (Some(Step::SyncFolder), 'u'),
    ];
    for (failing, wanted) in cases {
        let mut folder = folder(alloc, failing)?;
        let result = replace(&mut folder, &NEW);
        assert_eq!(rt; told(&result), wanted);
        let is_new = wanted == 'o' || wanted == 'u';
        let shown: &[u8] = if is_new { &NEW } else { &OLD };
        assert_eq!(rt; folder.shown(), shown);
        assert!(rt; !folder.has_new);
    }
    Ok(())
}

#[test]
fn a_new_file_that_cannot_be_removed_stays(rt: HostRuntime) -> Result<(), Fail> {
    let mut folder = folder(rt.alloc(), Some(Step::Rename))?;
    folder.keeps_new = true;
    let result = replace(&mut folder, &NEW);
    assert_eq!(rt; told(&result), 'f');
    assert_eq!(rt; folder.shown(), OLD.as_slice());
    assert!(rt; folder.has_new);
    Ok(())
}

#[test]
fn a_write_that_takes_nothing_fails(rt: HostRuntime) -> Result<(), Fail> {
    let mut folder = folder(rt.alloc(), None)?;
    folder.most = 0;
    let result = replace(&mut folder, &NEW);
    assert_eq!(rt; told(&result), 'f');
    assert_eq!(rt; folder.shown(), OLD.as_slice());
    Ok(())
}
