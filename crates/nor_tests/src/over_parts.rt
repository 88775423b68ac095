//! Flashes over a serial NOR part in memory, of each layout.
use dense_nor::{DenseLayout, DenseNorFlash};
use nor_part::{MemoryNor, NorFlash, Trouble};
use script_runs::run_script_on;
use std::alloc::Global;
use std::test::Fail;
use undofs::{Flash, format};

/// Where a part has its marks: in sectors of their own, or beside the data.
#[derive(Clone, Copy)]
pub(crate) enum Layout {
    Sure,
    Dense,
}

impl Layout {
    /// So many programs and erases of the part make a directory in the root and commit it: two nodes, each
    /// a block that is erased in two sectors and a page with its mark, and the page of the record with its
    /// mark. Where marks stand beside the data those of a block are made 0 before it is erased.
    pub(crate) fn change(self) -> u64 {
        match self {
            Layout::Sure => 2 * (2 + 2) + 2,
            Layout::Dense => 2 * (3 + 2) + 2,
        }
    }

    /// Those of them that are asked of data blocks.
    pub(crate) fn of_nodes(self) -> u64 {
        match self {
            Layout::Sure => 8,
            Layout::Dense => 10,
        }
    }
}

/// A flash over a part of 64 sectors, two in a block.
#[derive(Drop)]
pub(crate) enum OverPart {
    Sure(NorFlash<MemoryNor>),
    Dense(DenseNorFlash<MemoryNor>),
}

impl OverPart {
    /// One with an empty file system.
    pub(crate) fn formatted(alloc: Global, layout: Layout) -> Result<OverPart, Fail> {
        match layout {
            Layout::Sure => Ok(OverPart::Sure(formatted(alloc)?)),
            Layout::Dense => Ok(OverPart::Dense(formatted_dense(alloc)?)),
        }
    }

    /// What a script is answered.
    pub(crate) fn replies(&mut self, alloc: Global, script: &str) -> Result<String, Fail> {
        match self {
            OverPart::Sure(flash) => replies(alloc, flash, script),
            OverPart::Dense(flash) => replies(alloc, flash, script),
        }
    }

    /// After so many programs and erases of the part the next one is befallen by this.
    pub(crate) fn plan(&mut self, good: u64, trouble: Trouble) {
        match self {
            OverPart::Sure(flash) => flash.plan(good, trouble),
            OverPart::Dense(flash) => flash.plan(good, trouble),
        }
    }

    /// One made anew over the same part, with power on and nothing planned.
    pub(crate) fn restarted(self, alloc: Global) -> Result<OverPart, Fail> {
        match self {
            OverPart::Sure(flash) => Ok(OverPart::Sure(restarted(alloc, flash)?)),
            OverPart::Dense(flash) => Ok(OverPart::Dense(restarted_dense(alloc, flash)?)),
        }
    }
}

/// A flash over a part with marks in sectors of their own, with an empty file system.
pub(crate) fn formatted(alloc: Global) -> Result<NorFlash<MemoryNor>, Fail> {
    let part = MemoryNor::new(alloc, 64)?;
    let mut flash = NorFlash::new(alloc, part)?;
    format(alloc, &mut flash, 8)?;
    Ok(flash)
}

/// The same with marks beside the data.
fn formatted_dense(alloc: Global) -> Result<DenseNorFlash<MemoryNor>, Fail> {
    let part = MemoryNor::new(alloc, 64)?;
    let Some(layout) = DenseLayout::of(2) else {
        return Err(Fail::new("no layout"));
    };
    let mut flash = DenseNorFlash::new(alloc, part, layout)?;
    format(alloc, &mut flash, 8)?;
    Ok(flash)
}

/// What a script is answered.
pub(crate) fn replies<F: Flash>(
    alloc: Global,
    flash: &mut F,
    script: &str,
) -> Result<String, Fail> {
    let mut reader = script.as_bytes();
    let mut out: Vec<u8> = Vec::new(alloc);
    run_script_on(alloc, &mut reader, &mut out, flash)?;
    Ok(String::from_utf8(out)?)
}

/// A flash made anew over the same part, with power on and nothing planned.
pub(crate) fn restarted(
    alloc: Global,
    mut flash: NorFlash<MemoryNor>,
) -> Result<NorFlash<MemoryNor>, Fail> {
    flash.forget_plan();
    flash.power_on();
    Ok(flash.reopen(alloc)?)
}

/// The same with marks beside the data.
fn restarted_dense(
    alloc: Global,
    mut flash: DenseNorFlash<MemoryNor>,
) -> Result<DenseNorFlash<MemoryNor>, Fail> {
    flash.forget_plan();
    flash.power_on();
    Ok(flash.reopen(alloc)?)
}
