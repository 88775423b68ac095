//! An update of two files on a flash, a restart, and the update taken back.
#![tactic(auto)]

mod watched;

use flash_simulation::SimFlash;
use std::alloc::Global;
use undofs::{Fault, Flash, Fs, Geometry, Path, View, format};
use watched::Watched;

fn main(rt: HostRuntime) -> anyhow::Result<()> {
    let alloc = rt.alloc();
    let sizes = Geometry {
        page: 256,
        pages: 16,
        blocks: 32,
    };
    let mut flash = Watched::new(SimFlash::new(alloc, sizes, &[])?);
    format(alloc, &mut flash, 8)?;
    update(alloc, &mut flash)?;
    flash.power_on();
    take_back(&rt, &mut flash)?;
    println!(rt; "{} programs, {} erases", flash.programs, flash.erases)?;
    Ok(())
}

/// Mounts the flash, writes two files as one version, and commits it.
fn update<F: Flash>(alloc: Global, flash: &mut F) -> Result<(), Fault> {
    let mut fs = Fs::mount(alloc, flash)?;
    fs.begin()?;
    write(alloc, &mut fs, b"/name", b"pump")?;
    write(alloc, &mut fs, b"/limit", b"30")?;
    fs.end()?;
    fs.sync(alloc)
}

/// Mounts the flash, and undoes the newest version. It tells a file before and after that.
fn take_back<R: AllocGlobal + Print, F: Flash>(rt: &R, flash: &mut F) -> anyhow::Result<()> {
    let alloc = rt.alloc();
    let mut fs = Fs::mount(alloc, flash)?;
    let limit = read(alloc, &mut fs, b"/limit")?;
    println!(rt; "after the restart: {limit}")?;
    fs.undo()?;
    let gone = read(alloc, &mut fs, b"/limit").err();
    println!(rt; "after undo: {gone:?}")?;
    Ok(())
}

/// Makes a file of these bytes.
fn write<F: Flash>(
    alloc: Global,
    fs: &mut Fs<'_, F>,
    path: &[u8],
    bytes: &[u8],
) -> Result<(), Fault> {
    let path = Path::parse(alloc, path)?;
    fs.write_file(alloc, &path, bytes)
}

/// The first 16 bytes of a file of the present version, as text.
fn read<F: Flash>(alloc: Global, fs: &mut Fs<'_, F>, path: &[u8]) -> Result<String, Fault> {
    let path = Path::parse(alloc, path)?;
    let bytes = fs.read_at(alloc, &View::Present, &path, 0, 16)?;
    Ok(String::from_utf8_lossy(alloc, bytes.as_slice())?)
}
