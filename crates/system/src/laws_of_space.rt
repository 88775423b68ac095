//! What the figures of a history mean. The function does nothing: its contract is the laws.
ghost use Rattle.system.specs.SpaceLaws.{FreesLaw, RemovalLaw};

/// What [`System::space_by_version`](crate::System::space_by_version) tells by `df`: what forgetting
/// the versions up to one frees is what is free after that, less what is free before; and what a
/// checkpoint keeps alone is that of its removal.
pub fn space_laws()
    ensures frees { FreesLaw }
    ensures removal { RemovalLaw }
{}
