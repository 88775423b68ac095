//! What a script does with the faults that are planned for its flash.
ghost use Rattle.std.specs.Prelude.{◌≡◌, IfSome, IfOk, IfErr, Option};
ghost use Rattle.flash_model.specs.Plan.{Schedule};
ghost use Rattle.flash_model.specs.Reading.{OnlyReads};
ghost use Rattle.script.specs.declared.line.Line.{Line};
ghost use Rattle.system.specs.Mounts.{IsMountOf, MountCause};
ghost use Rattle.system.specs.Systems.{IsSystem};
ghost use Rattle.undofs.specs.Asks.{ServesAsk};
ghost use Rattle.script_runs.specs.Plans.{PlanGoesOn};
ghost use Rattle.script_runs.specs.Scripts.{IsStillAnswer};

use crate::following::{mount_as_planned, serve_from};
use flash_model::{FaultKind, Flash, Planned};
use fs_types::{Answer, Fault, Reply};
use script::LineAnswer;
use std::alloc::Global;
use std::marker::Brand;
use undofs::{Ask, System, Told, mount, serve_ask};

/// How scripts run on a flash of a type, with account of the faults that are planned for it.
pub(crate) trait Planning<F: Flash> {
    // The faults that are planned for a flash, where any can be.
    ghost plan: { F → Option Schedule };

    /// Mounts what the newest record of a flash holds, as [`mount`] does.
    fn mount(alloc: Global, flash: &mut F) -> Result<System, Fault>
        ensures ok { IfOk result (IsMountOf (F.device flash.old) (F.device flash.new)) }
        ensures system { IfOk result (IsSystem (F.device flash.new)) }
        ensures only_reads { OnlyReads (F.device flash.old) (F.device flash.new) }
        ensures why { IfErr result (MountCause (F.device flash.old) (F.device flash.new)) }
        ensures plan { PlanGoesOn (F.device flash.old) (plan flash.old) (F.device flash.new) (plan flash.new) };

    /// Does what is asked, as [`serve_ask`] does.
    fn serve(alloc: Global, flash: &mut F, system: &mut Option<System>, ask: &Ask) -> Told
        requires { IfSome system.old (IsSystem (F.device flash.old)) }
        ensures mounted { IfSome system.new (IsSystem (F.device flash.new)) }
        ensures serves { ServesAsk (F.device flash.old) system.old ask.now result (F.device flash.new) system.new }
        ensures plan { PlanGoesOn (F.device flash.old) (plan flash.old) (F.device flash.new) (plan flash.new) };

    /// Plans a fault, with the power off and without a system too.
    fn plan_fault(flash: &mut F, k: u64, kind: FaultKind) -> LineAnswer
        ensures still { F.device flash.new ≡ F.device flash.old }
        ensures plans { IsStillAnswer (Line.PlanFault k kind) (plan flash.old) result (plan flash.new) };
}

/// A planned flash follows its plan.
pub(crate) struct Followed;

impl<F: Planned> Planning<F> for Followed {
    ghost use Rattle.std.specs.Prelude.{Some, None};

    ghost plan = { λ flash. Some (F.schedule flash) };

    fn mount(alloc: Global, flash: &mut F) -> Result<System, Fault> {
        mount_as_planned(alloc, flash)
    }

    fn serve(alloc: Global, flash: &mut F, system: &mut Option<System>, ask: &Ask) -> Told {
        let mut told = Told::Answer(Answer::Unmounted);
        let _flash = serve_from::<F, Brand>(alloc, flash, system, ask, &mut told);
        told
    }

    fn plan_fault(flash: &mut F, k: u64, kind: FaultKind) -> LineAnswer {
        if k == 0 {
            return LineAnswer::Syntax;
        }
        match flash.plan_fault(k, kind) {
            Ok(()) => LineAnswer::Told(Answer::Done(Reply::Empty)),
            Err(fault) => LineAnswer::Told(Answer::Refused(fault)),
        }
    }
}

/// No fault can be planned: a line that asks for one has no form of a line.
pub(crate) struct Unplanned;

impl<F: Flash> Planning<F> for Unplanned {
    ghost use Rattle.std.specs.Prelude.{None};

    ghost plan = { λ _. None };

    fn mount(alloc: Global, flash: &mut F) -> Result<System, Fault> {
        mount(alloc, flash)
    }

    fn serve(alloc: Global, flash: &mut F, system: &mut Option<System>, ask: &Ask) -> Told {
        serve_ask(alloc, flash, system, ask)
    }

    fn plan_fault(_flash: &mut F, _k: u64, _kind: FaultKind) -> LineAnswer {
        LineAnswer::Syntax
    }
}
