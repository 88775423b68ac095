//! A device with a cut that is to come: its update, its starts, and what it may show.
use crate::shown::{Shown, look, tree};
use crate::trial::{NewFile, Started, begin_update, keep, start};
use flash_simulation::SimFlash;
use std::alloc::Global;
use undofs::{CpName, Fault, Flash, Fs, Geometry, Path, View, format};

/// What a device calls things by.
#[derive(Drop)]
pub struct Names {
    pub name: Path,
    pub limit: Path,
    pub trial: Path,
    pub good: CpName,
}

impl Names {
    pub fn new(alloc: Global) -> Result<Names, Fault> {
        Ok(Names {
            name: Path::parse(alloc, b"/name")?,
            limit: Path::parse(alloc, b"/limit")?,
            trial: Path::parse(alloc, b"/trial")?,
            good: CpName::parse(b"good")?,
        })
    }
}

/// What a device may show: two trees, of which power may have gone in between.
#[derive(Clone, Copy)]
pub struct MayShow {
    before: Shown,
    after: Shown,
}

impl MayShow {
    /// This tree alone.
    pub fn only(shown: Shown) -> MayShow {
        MayShow {
            before: shown,
            after: shown,
        }
    }

    /// The tree that is shown, where power did not go.
    pub fn shown(self) -> Shown {
        self.after
    }

    /// From now on the second of two trees may be shown.
    pub fn moves(&mut self, after: Shown) {
        self.after = after;
    }

    /// The second tree is shown from now on.
    pub fn arrives(&mut self) {
        self.before = self.after;
    }

    /// Takes one of the two as the one that is shown. [`Fault::Damaged`] where another one is.
    pub fn take(&mut self, shown: Shown) -> Result<(), Fault> {
        if shown != self.before && shown != self.after {
            return Err(Fault::Damaged);
        }
        *self = MayShow::only(shown);
        Ok(())
    }
}

/// A flash with the tree that is known to work.
pub fn new_device(alloc: Global, names: &Names) -> Result<SimFlash, Fault> {
    let sizes = Geometry {
        page: 256,
        pages: 16,
        blocks: 32,
    };
    let mut flash = SimFlash::new(alloc, sizes, &[])?;
    format(alloc, &mut flash, 8)?;
    let mut fs = Fs::mount(alloc, &mut flash)?;
    fs.write_file(alloc, &names.name, b"pump")?;
    fs.write_file(alloc, &names.limit, b"20")?;
    fs.checkpoint(&names.good)?;
    fs.sync(alloc)?;
    drop(fs);
    Ok(flash)
}

/// Mounts a device, and begins the update.
pub fn update<F: Flash>(
    alloc: Global,
    flash: &mut F,
    names: &Names,
    files: &[NewFile],
    may: &mut MayShow,
) -> Result<(), Fault> {
    let mut fs = Fs::mount(alloc, flash)?;
    may.moves(Shown::OnTrial(3));
    begin_update(alloc, &mut fs, &names.trial, files)?;
    may.arrives();
    Ok(())
}

/// Starts a device. Where an update is on trial it runs, and is kept where it proves good.
pub fn boot<F: Flash>(
    alloc: Global,
    flash: &mut F,
    names: &Names,
    proves_good: bool,
    may: &mut MayShow,
) -> Result<Started, Fault> {
    let mut fs = Fs::mount(alloc, flash)?;
    let before = look(alloc, &mut fs, &names.good)?;
    may.take(before)?;
    may.moves(before.started());
    let started = start(alloc, &mut fs, &names.trial, &names.good)?;
    may.arrives();
    check_undo(alloc, &mut fs, before, started)?;
    if proves_good && matches!(started, Started::OnTrial(_)) {
        may.moves(Shown::New);
        keep(alloc, &mut fs, &names.trial, &names.good)?;
        may.arrives();
    }
    Ok(started)
}

/// Undoes what a start did, where it did anything, and does it again.
fn check_undo<F: Flash>(
    alloc: Global,
    fs: &mut Fs<'_, F>,
    before: Shown,
    started: Started,
) -> Result<(), Fault> {
    if started == Started::Settled {
        return Ok(());
    }
    fs.undo()?;
    if tree(alloc, fs, &View::Present)? != before {
        return Err(Fault::Damaged);
    }
    fs.redo()?;
    if tree(alloc, fs, &View::Present)? != before.started() {
        return Err(Fault::Damaged);
    }
    Ok(())
}
