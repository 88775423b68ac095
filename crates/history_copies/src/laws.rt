//! The laws of copies. The function does nothing: its contract is the laws.
ghost use Rattle.history_copies.specs.Laws.{BringLaw, BuildLaw};

/// What calls make of a history that grows version by version: each brings the present tree to the next one,
/// and where a history has room for fewer, the newest stay.
pub fn copy_laws()
    ensures brings { BringLaw }
    ensures builds { BuildLaw }
{}
