//! The laws of puts. The function does nothing: its contract is the laws.
ghost use Rattle.program_laws.specs.PutLaws.{SavesOnceLaw, PutEventsLaw, PutsOnceLaw};

/// The history that was saved before a put is saved after it, or it changed once: by one version at
/// most, and its other versions and its checkpoints as a change of the history leaves them. So it is
/// of any events of a put that are carried out in one change group, and what is put, removed or
/// unpacked is made of such events alone.
pub fn put_laws()
    ensures once { SavesOnceLaw }
    ensures events { PutEventsLaw }
    ensures puts { PutsOnceLaw }
{}
