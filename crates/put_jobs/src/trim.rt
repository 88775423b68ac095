//! What nothing keeps is erased, once a put has made a version.
ghost use Rattle.std.specs.Prelude.{IfSome};
ghost use Rattle.flash_simulation.specs.Simulation.{device_of};
ghost use Rattle.system.specs.Systems.{IsSystem};
ghost use Rattle.put_jobs.specs.Served.{place, IsTrimmed, IsTrimmedWhere};

use crate::putting::Put;
use fs_types::Event;
use undofs::serve;

/// Trims what is left where a version was made.
pub(crate) fn trim_made(is_made: bool, put: &mut Put)
    requires { IfSome put.old.system (IsSystem (device_of put.old.flash)) }
    ensures { IsTrimmedWhere is_made (place put.old) (place put.new) }
{
    if is_made {
        trim(put);
    }
}

/// Marks all that versions and checkpoints keep, in one step, and erases the data blocks that are free then
/// and not blank, in another. Where one is refused what was put stays all the same, and blocks that nothing
/// keeps may be left as they were.
fn trim(put: &mut Put)
    requires { IfSome put.old.system (IsSystem (device_of put.old.flash)) }
    ensures mounted { IfSome put.new.system (IsSystem (device_of put.new.flash)) }
    ensures trims { IsTrimmed (place put.old) (place put.new) }
{
    let mark = Event::ReclaimStep(u64::MAX);
    let clean = Event::CleanStep(u64::MAX);
    let _marked = serve(put.alloc, &mut put.flash, &mut put.system, &mark);
    let _cleaned = serve(put.alloc, &mut put.flash, &mut put.system, &clean);
}
