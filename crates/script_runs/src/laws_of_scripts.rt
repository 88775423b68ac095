//! The laws of scripts. The function does nothing: its contract is the laws.
ghost use Rattle.script_runs.specs.Flashes.{CalmFormatLaw};
ghost use Rattle.script_runs.specs.Plans.{EntriesLaw};
ghost use Rattle.script_runs.specs.Scripts.{ScriptLaw, CalmMountLaw};

/// What lines do that are carried out: their calls are the events of a run, and are answered as
/// there. Of the faults that are planned, those that wait after an event are some of those that waited
/// before it, in order. Where none is planned, a mount and a format are refused for no failed read and
/// no loss of power, and a format for no bad block.
pub fn script_laws()
    ensures session { ScriptLaw }
    ensures entries { EntriesLaw }
    ensures calm_mount { CalmMountLaw }
    ensures calm_format { CalmFormatLaw }
{}
