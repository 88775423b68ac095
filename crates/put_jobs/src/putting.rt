//! Things are put into an image, as one version.
ghost use Rattle.std.specs.Prelude.{◌≡◌, ◌++◌, [], IfOk, IfErr, IfSome, OnOk};
ghost use Rattle.flash_simulation.specs.Simulation.{device_of};
ghost use Rattle.system.specs.Systems.{IsSystem};
ghost use Rattle.host_interface.specs.Files.{KeepsOthers, KeepsOrSyncs};
ghost use Rattle.put_jobs.specs.Gives.{PutsAfter, PutsGroup, PutsOn, UnputOn, PutsIn, UnputIn, ThingsEnd};
ghost use Rattle.put_jobs.specs.Puts.{group_start};
ghost use Rattle.put_jobs.specs.Served.{place, Asks};

use crate::refused::{tell_room, tell_stopped, tell_unremoved};
use crate::things::Things;
use flash_model::Flash;
use flash_simulation::SimFlash;
use fs_types::Event;
use host_interface::ImageFiles;
use image_jobs::{Failure, flash_of, save_changed, take_image};
use script_runs::mount_as_planned;
use std::alloc::Global;
use std::io::Write;
use undofs::System;

/// A flash on which things are put, with the system that is mounted on it, if one is.
#[derive(Drop)]
pub(crate) struct Put {
    pub(crate) alloc: Global,
    pub(crate) flash: SimFlash,
    pub(crate) system: Option<System>,
}

/// Puts things into an image, which is claimed first, as one version. The image is written back where all of
/// them were put.
pub(crate) fn put_into<F: ImageFiles, T: Things<F>, E: Write>(
    files: &mut F,
    alloc: Global,
    name: &str,
    things: &mut T,
    err: &mut E,
) -> Result<(), Failure>
    ensures ends { ThingsEnd F.claims F.held F.reads name.now (T.removes things.old) (T.unlisted things.old) (λ f. T.gives f things.old) (F.held files.old) (F.held files.new) result }
    ensures synced { OnOk result (KeepsOrSyncs (F.held files.old) (F.held files.new) (F.synced files.new name.now)) }
    ensures others { KeepsOthers name.now (F.held files.old) (F.held files.new) }
{
    let image = match take_image(files, alloc, name) {
        Ok(image) => image,
        Err(failure) => return Err(failure),
    };
    match put_on_image(files, alloc, &image, things, err) {
        Ok(flash) => save_changed(files, alloc, name, &image, &flash),
        Err(failure) => Err(failure),
    }
}

/// Puts things on the flash that an image spells, after what is removed of its tree, and gives the flash as
/// it is left.
fn put_on_image<F: ImageFiles, T: Things<F>, E: Write>(
    files: &F,
    alloc: Global,
    image: &[u8],
    things: &mut T,
    err: &mut E,
) -> Result<SimFlash, Failure>
    ensures ok { IfOk result (PutsIn (T.removes things.old) (T.gives files.now things.old) image.now) }
    ensures err { IfErr result (UnputIn (T.removes things.old) (T.unlisted things.old) (T.gives files.now things.old) image.now) }
{
    let removed = match things.removed(alloc, image) {
        Ok(removed) => removed,
        Err(failure) => return Err(failure),
    };
    match flash_of(alloc, image) {
        Ok(flash) => run(files, alloc, flash, &removed, things, err),
        Err(failure) => Err(failure),
    }
}

/// Removes and puts things on a flash, as one version, and gives the flash as it is left.
pub(crate) fn run<F: ImageFiles, T: Things<F>, E: Write>(
    files: &F,
    alloc: Global,
    flash: SimFlash,
    removed: &[Event],
    things: &mut T,
    err: &mut E,
) -> Result<SimFlash, Failure>
    ensures ok { IfOk result (PutsOn removed.now (T.gives files.now things.old) flash) }
    ensures err { IfErr result (UnputOn removed.now (T.gives files.now things.old) flash) }
{
    let mut flash = flash;
    let system = match mount_as_planned(alloc, &mut flash) {
        Ok(system) => Some(system),
        Err(fault) => return Err(Failure::of_system(fault)),
    };
    let mut put = Put {
        alloc,
        flash,
        system,
    };
    match put.group(files, removed, things, err) {
        Ok(()) => Ok(put.flash),
        Err(failure) => Err(failure),
    }
}

impl Put {
    /// Removes and puts things in one change group, and brings it to the flash where it makes a version.
    fn group<F: ImageFiles, T: Things<F>, E: Write>(
        &mut self,
        files: &F,
        removed: &[Event],
        things: &mut T,
        err: &mut E,
    ) -> Result<(), Failure>
        requires { IfSome self.old.system (IsSystem (device_of self.old.flash)) }
        ensures { PutsGroup removed.now (T.gives files.now things.old) (place self.old) result (place self.new) }
    {
        match self.fill(files, removed, things, err) {
            Ok(()) => {}
            Err(failure) => {
                let wanted = things.blocks(self.flash.geometry());
                tell_room(failure, wanted, self, err);
                return Err(failure);
            }
        }
        match self.end() {
            Ok(()) => Ok(()),
            Err(refusal) => {
                things.tell_group(self.alloc, refusal, self.flash.geometry(), err);
                Err(Failure::of_refusal(refusal))
            }
        }
    }

    /// Begins a change group, and removes and puts things in it.
    fn fill<F: ImageFiles, T: Things<F>, E: Write>(
        &mut self,
        files: &F,
        removed: &[Event],
        things: &mut T,
        err: &mut E,
    ) -> Result<(), Failure>
        requires { IfSome self.old.system (IsSystem (device_of self.old.flash)) }
        ensures mounted { IfSome self.new.system (IsSystem (device_of self.new.flash)) }
        ensures ends { PutsAfter (group_start ++ removed.now) (T.gives files.now things.old) (place self.old) result (place self.new) }
    {
        match self.begin(removed) {
            Ok(()) => self.each(files, things, err),
            Err(refusal) => {
                if !tell_unremoved(refusal, removed, self, err) {
                    things.tell_group(self.alloc, refusal, self.flash.geometry(), err);
                }
                Err(Failure::of_refusal(refusal))
            }
        }
    }

    /// Puts things, each in its turn. Which one is not put is told.
    fn each<F: ImageFiles, T: Things<F>, E: Write>(
        &mut self,
        files: &F,
        things: &mut T,
        err: &mut E,
    ) -> Result<(), Failure>
        requires { IfSome self.old.system (IsSystem (device_of self.old.flash)) }
        ensures mounted { IfSome self.new.system (IsSystem (device_of self.new.flash)) }
        ensures ends { PutsAfter [] (T.gives files.now things.old) (place self.old) result (place self.new) }
    {
        loop {
            let Some(events) = things.next(files, self.alloc, err)? else {
                return Ok(());
            };
            self.ask(&events, err)?;
        }
    }

    /// Carries out the events that put a thing. What is refused of them is told.
    fn ask<E: Write>(&mut self, events: &[Event], err: &mut E) -> Result<(), Failure>
        requires { IfSome self.old.system (IsSystem (device_of self.old.flash)) }
        ensures mounted { IfSome self.new.system (IsSystem (device_of self.new.flash)) }
        ensures asks { Asks events.now (place self.old) result (place self.new) }
    {
        match self.ask_all(events) {
            Ok(()) => Ok(()),
            Err(refusal) => {
                tell_stopped(refusal, events, self, err);
                Err(Failure::of_refusal(refusal))
            }
        }
    }
}
