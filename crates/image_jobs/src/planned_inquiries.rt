//! What is asked of a flash in memory, with account of the faults that are planned for it.
ghost use Rattle.std.specs.Prelude.{◌≡◌, IfOk, IfErr};
ghost use Rattle.fs_types.specs.declared.call.View.{View};
ghost use Rattle.flash_simulation.specs.Simulation.{device_of, plan_of};
ghost use Rattle.inquiries.specs.Asked.{Tells, Lists, AskCause};
ghost use Rattle.inquiries.specs.declared.inquiry.Inquiry.{Inquiry};
ghost use Rattle.script_runs.specs.Plans.{GoesOn, FollowsPlan};

use flash_simulation::SimFlash;
use fs_types::{Bytes, Fault};
use inquiries::{AskFault, Inquiry, Item, ask, list};
use script_runs::{Following, Start};
use std::alloc::Global;
use std::marker::Brand;

/// Tells what is asked of a flash, as [`ask`] does.
pub(crate) fn ask_as_planned(
    alloc: Global,
    flash: &mut SimFlash,
    inquiry: &Inquiry,
) -> Result<Bytes, AskFault>
    ensures ok { IfOk result (Tells (device_of flash.old) inquiry.now) }
    ensures err { IfErr result (AskCause (device_of flash.old) inquiry.now (device_of flash.new)) }
    ensures plan { FollowsPlan flash.old flash.new }
{
    let mut told = Err(AskFault::Unmounted(Fault::NoRecord));
    let _flash = ask_from::<Brand>(alloc, flash, inquiry, &mut told);
    told
}

/// The same, with the flash given back, and what is told put into its place.
fn ask_from<'f, S: Start>(
    alloc: Global,
    flash: &'f mut SimFlash,
    inquiry: &Inquiry,
    told: &mut Result<Bytes, AskFault>,
) -> &'f mut SimFlash
    requires name { flash.ghost_name ≡ S.name }
    requires plan { plan_of flash.old ≡ S.plan }
    requires device { device_of flash.old ≡ S.device }

    // What is told, or why not.
    ensures same_flash { result.ghost_name ≡ flash.entry.ghost_name }
    ensures ok { IfOk told.new (Tells (device_of flash.entry.now) inquiry.now) }
    ensures err { IfErr told.new (AskCause (device_of flash.entry.now) inquiry.now (device_of result.now)) }

    // The plan went on.
    ensures plan { GoesOn S.device S.plan (device_of result.now) (plan_of result.now) }
{
    let mut following: Following<'f, SimFlash, S> = Following::on(flash);
    *told = ask(alloc, &mut following, inquiry);
    following.into_flash()
}

/// Lists what stands in the present tree of a flash, as [`list`] does.
pub fn list_as_planned(alloc: Global, flash: &mut SimFlash) -> Result<Vec<Item>, AskFault>
    ensures ok { IfOk result (λ items. Lists (device_of flash.old) items.items) }
    ensures err { IfErr result (AskCause (device_of flash.old) (Inquiry.Tree View.Present) (device_of flash.new)) }
    ensures plan { FollowsPlan flash.old flash.new }
{
    let mut listed = Err(AskFault::Unmounted(Fault::NoRecord));
    let _flash = list_from::<Brand>(alloc, flash, &mut listed);
    listed
}

/// The same, with the flash given back, and the list put into its place.
fn list_from<'f, S: Start>(
    alloc: Global,
    flash: &'f mut SimFlash,
    listed: &mut Result<Vec<Item>, AskFault>,
) -> &'f mut SimFlash
    requires name { flash.ghost_name ≡ S.name }
    requires plan { plan_of flash.old ≡ S.plan }
    requires device { device_of flash.old ≡ S.device }

    // What stands there, or why that is not known.
    ensures same_flash { result.ghost_name ≡ flash.entry.ghost_name }
    ensures ok { IfOk listed.new (λ items. Lists (device_of flash.entry.now) items.items) }
    ensures err { IfErr listed.new (AskCause (device_of flash.entry.now) (Inquiry.Tree View.Present) (device_of result.now)) }

    // The plan went on.
    ensures plan { GoesOn S.device S.plan (device_of result.now) (plan_of result.now) }
{
    let mut following: Following<'f, SimFlash, S> = Following::on(flash);
    *listed = list(alloc, &mut following);
    following.into_flash()
}
