//! The first words of lines.
ghost use Rattle.std.specs.Prelude.{◌≡◌};
ghost use Rattle.std.specs.Map.{lookup};
ghost use Rattle.std.specs.Str.{bytes_eq};
ghost use Rattle.script.specs.Verbs.{verbs};

use crate::spelled::find_spelled;

/// What a line asks for, by its first word.
#[derive(Clone, Copy, Debug)]
pub enum Verb {
    Open,
    Close,
    Pread,
    Pwrite,
    Ftruncate,
    Write,
    Rename,
    Unlink,
    Mkdir,
    Rmdir,
    Fsync,
    Sync,
    Stat,
    Ls,
    Read,
    Entries,
    Undo,
    Redo,
    Goto,
    Rollback,
    Forget,
    ForgetFree,
    Checkpoint,
    Rmcheckpoint,
    Begin,
    End,
    Abandon,
    Log,
    Df,
    Space,
    Reclaim,
    Clean,
    Prepare,
    Restart,
    PlanFault,
}

const VERBS: [(&[u8], Verb); 35] = [
    (b"open", Verb::Open),
    (b"close", Verb::Close),
    (b"pread", Verb::Pread),
    (b"pwrite", Verb::Pwrite),
    (b"ftruncate", Verb::Ftruncate),
    (b"write", Verb::Write),
    (b"rename", Verb::Rename),
    (b"unlink", Verb::Unlink),
    (b"mkdir", Verb::Mkdir),
    (b"rmdir", Verb::Rmdir),
    (b"fsync", Verb::Fsync),
    (b"sync", Verb::Sync),
    (b"stat", Verb::Stat),
    (b"ls", Verb::Ls),
    (b"read", Verb::Read),
    (b"entries", Verb::Entries),
    (b"undo", Verb::Undo),
    (b"redo", Verb::Redo),
    (b"goto", Verb::Goto),
    (b"rollback", Verb::Rollback),
    (b"forget", Verb::Forget),
    (b"forgetfree", Verb::ForgetFree),
    (b"checkpoint", Verb::Checkpoint),
    (b"rmcheckpoint", Verb::Rmcheckpoint),
    (b"begin", Verb::Begin),
    (b"end", Verb::End),
    (b"abandon", Verb::Abandon),
    (b"log", Verb::Log),
    (b"df", Verb::Df),
    (b"space", Verb::Space),
    (b"reclaim", Verb::Reclaim),
    (b"clean", Verb::Clean),
    (b"prepare", Verb::Prepare),
    (b"restart", Verb::Restart),
    (b"fault", Verb::PlanFault),
];

/// The verb that a word spells.
pub fn verb_of(word: &[u8]) -> Option<Verb>
    ensures { result ≡ lookup (bytes_eq word.now) verbs }
{
    find_spelled(&VERBS, word)
}
