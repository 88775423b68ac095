//! What a flash keeps for what stands in a directory.
ghost use Rattle.std.specs.Prelude.{◌≡◌, IfOk, IfErr};
ghost use Rattle.flash_model.specs.Reading.{OnlyReads};
ghost use Rattle.working_state.specs.Mounted.{IsMounted};
ghost use Rattle.block_usage.specs.UsageReports.{IsUsageReport, AreUsagesOf, ReportCause, StateCause, of_usages};

use crate::blocks_apart::mark_apart;
use crate::other_roots::other_roots;
use crate::stored_usages::usages_on;
use crate::usage_fault::UsageFault;
use crate::usage_list::UsageList;
use flash_model::Flash;
use fs_types::{Fault, Path, View};
use std::alloc::Global;
use system::mount;
use thiserror::Error;
use working_state::State;

/// Why it is not told how many blocks entries reach.
#[derive(Clone, Copy, Debug, PartialEq, Eq, Error)]
pub enum ReportFault {
    /// No system is mounted.
    #[error("not mounted: {0}")]
    Unmounted(Fault),
    /// The view or the path is refused, or by what the reading met.
    #[error("refused: {0}")]
    Refused(Fault),
    /// The entries reach over [`MAX_USAGE_BLOCKS`](crate::usage_fault::MAX_USAGE_BLOCKS) blocks together.
    #[error("too many blocks")]
    TooManyBlocks,
}

/// How many blocks each entry of the directory at a path of a view reaches, or the file there, and how many
/// of these are not bad and are reached by no version and no checkpoint but the one that the view shows. What
/// the newest record of the flash holds is mounted for that, and the flash is only read. Nodes that the others
/// reach are read once, and each node that an entry reaches for that entry and for all together.
///
/// [`ReportFault::Unmounted`] as a mount is refused. [`ReportFault::Refused`] as `stat` of the view and the path
/// is, else with [`Fault::ReadFailed`], [`Fault::PowerCut`] or [`Fault::NoMemory`].
pub fn report_usages<F: Flash>(
    alloc: Global,
    flash: &mut F,
    view: &View,
    path: &Path,
) -> Result<UsageList, ReportFault>
    ensures ok { IfOk result (IsUsageReport (F.device flash.old) view.now path.now) }
    ensures only_reads { OnlyReads (F.device flash.old) (F.device flash.new) }
    ensures err { IfErr result (ReportCause (F.device flash.old) view.now path.now (F.device flash.new)) }
{
    let mut system = match mount(alloc, flash) {
        Ok(system) => system,
        Err(fault) => return Err(ReportFault::Unmounted(fault)),
    };
    match usages_of_state(alloc, flash, &mut system.state, view, path) {
        Ok(list) => Ok(list),
        Err(fault) => Err(of_usages(fault)),
    }
}

/// By why usages are not told.
fn of_usages(fault: UsageFault) -> ReportFault
    ensures { result ≡ of_usages fault }
{
    match fault {
        UsageFault::Refused(fault) => ReportFault::Refused(fault),
        UsageFault::TooManyBlocks => ReportFault::TooManyBlocks,
    }
}

/// The same, of a working state with no group.
fn usages_of_state<F: Flash>(
    alloc: Global,
    flash: &mut F,
    state: &mut State,
    view: &View,
    path: &Path,
) -> Result<UsageList, UsageFault>
    requires { IsMounted (F.device flash.old) state.old }
    ensures ok { IfOk result (AreUsagesOf (F.device flash.old) state.old view.now path.now) }
    ensures only_reads { OnlyReads (F.device flash.old) (F.device flash.new) }
    ensures err { IfErr result (StateCause (F.device flash.old) state.old view.now path.now (F.device flash.new)) }
{
    let root = state.seen(view)?;
    let others = other_roots(alloc, &state.history, view)?;
    let apart = mark_apart(alloc, flash, &mut state.storage, &others)?;
    usages_on(alloc, flash, &mut state.storage, root, path, &apart)
}
