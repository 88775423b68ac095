//! The kinds of planned faults, by their words.
ghost use Rattle.std.specs.Prelude.{◌≡◌};
ghost use Rattle.std.specs.Map.{lookup};
ghost use Rattle.std.specs.Str.{bytes_eq};
ghost use Rattle.script.specs.Kinds.{kinds};

use crate::spelled::find_spelled;
use flash_model::FaultKind;

const KINDS: [(&[u8], FaultKind); 10] = [
    (b"read-fail", FaultKind::ReadFail),
    (b"read-cut", FaultKind::ReadCut),
    (b"program-fail", FaultKind::ProgramFail),
    (b"program-cut-none", FaultKind::ProgramCutNone),
    (b"program-cut-whole", FaultKind::ProgramCutWhole),
    (b"program-cut-torn", FaultKind::ProgramCutTorn),
    (b"erase-fail", FaultKind::EraseFail),
    (b"erase-cut-none", FaultKind::EraseCutNone),
    (b"erase-cut-whole", FaultKind::EraseCutWhole),
    (b"erase-cut-torn", FaultKind::EraseCutTorn),
];

/// The kind that a word spells.
pub fn kind_of(word: &[u8]) -> Option<FaultKind>
    ensures { result ≡ lookup (bytes_eq word.now) kinds }
{
    find_spelled(&KINDS, word)
}
