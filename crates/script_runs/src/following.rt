//! A planned flash of which the plan of faults is known after each call. The contracts of calls on any
//! flash say nothing of a plan; here they run on a flash whose every operation keeps account of it.
ghost use Rattle.std.specs.Prelude.{◌≡◌, ◌<◌, ◌⊎◌, ◌↔◌, ℕ, false, [], Err, IfSome, IfOk, OnOk, IfErr};
ghost use Rattle.fs_types.specs.declared.limits.TheConstants.{MIN_VERSIONS, MAX_VERSIONS};
ghost use Rattle.flash_model.specs.Device.{Device, erased};
ghost use Rattle.flash_model.specs.Geometry.{IsGeometry};
ghost use Rattle.flash_model.specs.Plan.{Schedule, plan_of_entries};
ghost use Rattle.flash_model.specs.Reading.{OnlyReads};
ghost use Rattle.mounting.specs.Formats.{IsFormatted, ListsFailed, IsNumbered, FormatCause};
ghost use Rattle.system.specs.Mounts.{IsMountOf, MountCause};
ghost use Rattle.system.specs.Systems.{IsSystem};
ghost use Rattle.undofs.specs.Asks.{ServesAsk};
ghost use Rattle.script_runs.specs.Plans.{GoesOn};

use flash_model::{DevFault, Flash, Geometry, PageState, Planned};
use fs_types::Fault;
use std::alloc::Global;
use std::marker::{Brand, PhantomData};
use undofs::{Ask, System, Told, format, mount, serve_ask};

/// A flash at one moment: the name of the reference to it, the device, and its plan.
pub trait Start {
    ghost name: { ℕ };

    ghost device: { Device };

    ghost plan: { Schedule };
}

impl Start for Brand {
    ghost name = { 0 };

    ghost device = { record { geometry = record { page = 0; pages = 0; blocks = 0 }; pages = λ page. erased; powered = false; worn = λ block. false; failed_reads = 0; failures = 0; cuts = 0; operations = 0 } };

    ghost plan = { plan_of_entries [] };
}

/// A flash whose plan has gone on from what it was at the start. What works on any flash works on it, and
/// what that leaves of the plan is known when the flash is given back.
#[derive(Drop)]
pub struct Following<'f, F: Planned, S: Start> {
    flash: &'f mut F,
    start: PhantomData<S>,
    ghost same_flash: { flash.ghost_name ≡ S.name },
    ghost goes_on: { GoesOn S.device S.plan (F.device flash.now) (F.schedule flash.now) },
}

impl<'f, F: Planned, S: Start> Following<'f, F, S> {
    /// A flash at its start.
    pub fn on(flash: &'f mut F) -> Following<'f, F, S>
        requires name { flash.ghost_name ≡ S.name }
        requires plan { F.schedule flash.old ≡ S.plan }
        requires device { F.device flash.old ≡ S.device }
        ensures same { result.flash.now ≡ flash.old }
        ensures same_flash { result.flash.ghost_name ≡ flash.entry.ghost_name }
    {
        Following {
            flash,
            start: PhantomData,
        }
    }

    /// Gives the flash back.
    pub fn into_flash(self) -> &'f mut F
        ensures same { result ≡ self.entry.flash }
        ensures same_flash { result.ghost_name ≡ S.name }
        ensures plan { GoesOn S.device S.plan (F.device result.now) (F.schedule result.now) }
    {
        let Following { flash, .. } = self;
        flash
    }
}

impl<'f, F: Planned, S: Start> Flash for Following<'f, F, S> {
    ghost device = { λ following. F.device following.flash.now };

    ghost whole_pages = { λ following. F.whole_pages following.flash.now };

    fn geometry(&self) -> Geometry {
        self.flash.geometry()
    }

    fn read(&mut self, page: u32, buffer: &mut [u8]) -> Result<PageState, DevFault> {
        self.flash.read_as_planned(page, buffer)
    }

    fn program(&mut self, page: u32, bytes: &[u8]) -> Result<(), DevFault> {
        self.flash.program_as_planned(page, bytes)
    }

    fn erase(&mut self, block: u32) -> Result<(), DevFault> {
        self.flash.erase_as_planned(block)
    }

    fn power_on(&mut self) {
        self.flash.power_on_as_planned();
    }
}

/// Does what is asked, as [`serve_ask`] does, with the flash given back, and what is told put into its place.
pub(crate) fn serve_from<'f, F: Planned, S: Start>(
    alloc: Global,
    flash: &'f mut F,
    system: &mut Option<System>,
    ask: &Ask,
    told: &mut Told,
) -> &'f mut F
    requires mounted { IfSome system.old (IsSystem (F.device flash.old)) }
    requires name { flash.ghost_name ≡ S.name }
    requires plan { F.schedule flash.old ≡ S.plan }
    requires device { F.device flash.old ≡ S.device }

    // It is done.
    ensures same_flash { result.ghost_name ≡ flash.entry.ghost_name }
    ensures mounted { IfSome system.new (IsSystem (F.device result.now)) }
    ensures serves { ServesAsk (F.device flash.entry.now) system.old ask.now told.new (F.device result.now) system.new }

    // The plan went on.
    ensures plan { GoesOn S.device S.plan (F.device result.now) (F.schedule result.now) }
{
    let mut following: Following<'f, F, S> = Following::on(flash);
    *told = serve_ask(alloc, &mut following, system, ask);
    let Following { flash, .. } = following;
    flash
}

/// Mounts what the newest record of a flash holds, as [`mount`] does. The plan goes on by what that asks
/// of the flash, so that where no fault is planned none comes.
pub fn mount_as_planned<F: Planned>(alloc: Global, flash: &mut F) -> Result<System, Fault>
    ensures ok { IfOk result (IsMountOf (F.device flash.old) (F.device flash.new)) }
    ensures system { IfOk result (IsSystem (F.device flash.new)) }
    ensures only_reads { OnlyReads (F.device flash.old) (F.device flash.new) }
    ensures why { IfErr result (MountCause (F.device flash.old) (F.device flash.new)) }
    ensures plan { GoesOn (F.device flash.old) (F.schedule flash.old) (F.device flash.new) (F.schedule flash.new) }
{
    let mut mounted = Err(Fault::NoRecord);
    let _flash = mount_from::<F, Brand>(alloc, flash, &mut mounted);
    mounted
}

/// The same, with the flash given back, and the system or the refusal put into its place.
fn mount_from<'f, F: Planned, S: Start>(
    alloc: Global,
    flash: &'f mut F,
    mounted: &mut Result<System, Fault>,
) -> &'f mut F
    requires name { flash.ghost_name ≡ S.name }
    requires plan { F.schedule flash.old ≡ S.plan }
    requires device { F.device flash.old ≡ S.device }

    // What is mounted, by reads alone, or why not.
    ensures same_flash { result.ghost_name ≡ flash.entry.ghost_name }
    ensures ok { IfOk mounted.new (IsMountOf (F.device flash.entry.now) (F.device result.now)) }
    ensures system { IfOk mounted.new (IsSystem (F.device result.now)) }
    ensures only_reads { OnlyReads (F.device flash.entry.now) (F.device result.now) }
    ensures why { IfErr mounted.new (MountCause (F.device flash.entry.now) (F.device result.now)) }

    // The plan went on.
    ensures plan { GoesOn S.device S.plan (F.device result.now) (F.schedule result.now) }
{
    let mut following: Following<'f, F, S> = Following::on(flash);
    *mounted = mount(alloc, &mut following);
    let Following { flash, .. } = following;
    flash
}

/// Makes an empty file system on a flash, as [`format`] does. The plan goes on by what that asks of the
/// flash, so that where no fault is planned none comes.
pub fn format_as_planned<F: Planned>(alloc: Global, flash: &mut F, limit: u32) -> Result<(), Fault>
    ensures ok { OnOk result (IsFormatted limit (F.device flash.new)) }
    ensures stay { OnOk result ((F.device flash.new).geometry ≡ (F.device flash.old).geometry) }
    ensures listed { OnOk result (ListsFailed (F.device flash.old) (F.device flash.new)) }
    ensures numbered { OnOk result (IsNumbered (F.device flash.old) (F.device flash.new)) }
    ensures why { IfErr result (λ fault. FormatCause (F.device flash.old) limit fault (F.device flash.new)) }
    ensures limits { (result ≡ Err Fault.Invalid) ↔ (IsGeometry (F.device flash.old).geometry × ((limit < MIN_VERSIONS) ⊎ (MAX_VERSIONS < limit))) }
    ensures plan { GoesOn (F.device flash.old) (F.schedule flash.old) (F.device flash.new) (F.schedule flash.new) }
{
    let mut formatted = Ok(());
    let _flash = format_from::<F, Brand>(alloc, flash, limit, &mut formatted);
    formatted
}

/// The same, with the flash given back, and what a format answers put into its place.
fn format_from<'f, F: Planned, S: Start>(
    alloc: Global,
    flash: &'f mut F,
    limit: u32,
    formatted: &mut Result<(), Fault>,
) -> &'f mut F
    requires name { flash.ghost_name ≡ S.name }
    requires plan { F.schedule flash.old ≡ S.plan }
    requires device { F.device flash.old ≡ S.device }

    // What is formatted, or why not.
    ensures same_flash { result.ghost_name ≡ flash.entry.ghost_name }
    ensures ok { OnOk formatted.new (IsFormatted limit (F.device result.now)) }
    ensures stay { OnOk formatted.new ((F.device result.now).geometry ≡ (F.device flash.entry.now).geometry) }
    ensures listed { OnOk formatted.new (ListsFailed (F.device flash.entry.now) (F.device result.now)) }
    ensures numbered { OnOk formatted.new (IsNumbered (F.device flash.entry.now) (F.device result.now)) }
    ensures why { IfErr formatted.new (λ fault. FormatCause (F.device flash.entry.now) limit fault (F.device result.now)) }
    ensures limits { (formatted.new ≡ Err Fault.Invalid) ↔ (IsGeometry (F.device flash.entry.now).geometry × ((limit < MIN_VERSIONS) ⊎ (MAX_VERSIONS < limit))) }

    // The plan went on.
    ensures plan { GoesOn S.device S.plan (F.device result.now) (F.schedule result.now) }
{
    let mut following: Following<'f, F, S> = Following::on(flash);
    *formatted = format(alloc, &mut following, limit);
    let Following { flash, .. } = following;
    flash
}
