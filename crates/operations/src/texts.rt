//! Calls from short texts, carried out on a flash that was formatted.
use crate::error::MeasureError;
use crate::watched::{Counts, Watched};
use flash_model::Geometry;
use flash_simulation::SimFlash;
use fs_types::{Ask, Call, Event, Name, NamedFile, Path, Sequence};
use put_lots::{Thing, events_of, take_in};
use script::{Line, read_line};
use std::alloc::{AllocError, Global};
use undofs::{Fs, format};

/// Small pages and blocks, with room for a file of 1 MiB many times over.
pub const SMALL_BLOCKS: Geometry = Geometry {
    page: 256,
    pages: 16,
    blocks: 2048,
};

/// Small pages and blocks, as many as 64 changes of a file of 1 MiB write, none of them twice.
pub const MANY_BLOCKS: Geometry = Geometry {
    page: 256,
    pages: 16,
    blocks: 16_384,
};

/// Large pages and blocks.
pub const LARGE_BLOCKS: Geometry = Geometry {
    page: 2048,
    pages: 64,
    blocks: 512,
};

/// Blocks of one page.
pub const BLOCKS_OF_A_PAGE: Geometry = Geometry {
    page: 4096,
    pages: 1,
    blocks: 16_384,
};

/// How many bytes the files have that are read in pieces.
const MIB: usize = 1_048_576;

/// How many versions are kept where nothing else is said.
pub const HISTORY: u32 = 8;

/// A flash of these sizes on which an empty file system was made that keeps so many versions.
pub fn formatted(alloc: Global, sizes: Geometry, history: u32) -> Result<Watched, MeasureError> {
    let mut flash = Watched::new(SimFlash::new(alloc, sizes, &[])?);
    format(alloc, &mut flash, history)?;
    Ok(flash)
}

/// Mounts what is on a flash with so many nodes in memory, carries out the calls of a text, and answers
/// what was asked of the flash since it was made.
///
/// A line is a call or a step of a script, or `fill N`, which writes N bytes at the start of descriptor
/// 0, `whole N`, which writes a whole file `/a/f` of N bytes, `many N`, which writes N files of 1,000
/// bytes in `/a` in one call, `lots N`, which writes N files of 20,000 bytes in `/a/a` in lots as a put
/// does, `deep N`, which makes N directories `a`, each in the one before, `wide N`, which makes N
/// directories in the root, named by numbers from 1000 on, `flat N`, which writes N files without bytes
/// there, `broad N`, which makes N directories of 100 files in `/b`, `scatter N`, which writes a byte at
/// each of the places 8,192 and 16,384 further on N times of descriptor 0, `scan N`, which reads 1 MiB of
/// descriptor 0 in pieces of N bytes, `gather N`, which reads N bytes at each of 64 places of it, or
/// `cold`, which forgets the nodes in memory.
pub fn counts_after(
    alloc: Global,
    flash: &mut Watched,
    nodes: usize,
    lines: &[&str],
) -> Result<Counts, MeasureError> {
    let mut system = Fs::mount_with(alloc, flash, nodes)?;
    carry_out_lines(alloc, &mut system, lines)?;
    Ok(system.into_flash().counts())
}

fn carry_out_lines(
    alloc: Global,
    system: &mut Fs<'_, Watched>,
    lines: &[&str],
) -> Result<(), MeasureError> {
    for (i, line) in lines.iter().enumerate() {
        carry_out(alloc, system, line, i)?;
    }
    Ok(())
}

fn carry_out(
    alloc: Global,
    system: &mut Fs<'_, Watched>,
    line: &str,
    number: usize,
) -> Result<(), MeasureError> {
    if take_step(alloc, system, line)? {
        return Ok(());
    }
    if let Some(depth) = number_after(line, "deep ") {
        return make_directories(alloc, system, depth);
    }
    if let Some(count) = number_after(line, "wide ") {
        return make_siblings(alloc, system, count);
    }
    if let Some(count) = number_after(line, "flat ") {
        return write_siblings(alloc, system, "", count);
    }
    if let Some(count) = number_after(line, "broad ") {
        return make_full_directories(alloc, system, count);
    }
    if let Some(count) = number_after(line, "lots ") {
        return write_lots(alloc, system, count);
    }
    if let Some(count) = number_after(line, "scatter ") {
        return write_places(alloc, system, count);
    }
    if let Some(size) = number_after(line, "scan ") {
        return read_pieces(alloc, system, size);
    }
    if let Some(size) = number_after(line, "gather ") {
        return read_places(alloc, system, size);
    }
    let call = call_of(alloc, line, number)?;
    ask(alloc, system, &call)
}

/// Carries out a line that asks no call, and tells whether it is one.
fn take_step(
    alloc: Global,
    system: &mut Fs<'_, Watched>,
    line: &str,
) -> Result<bool, MeasureError> {
    if line == "cold" {
        system.forget_nodes();
        return Ok(true);
    }
    if let Some(budget) = number_after(line, "reclaim ") {
        system.reclaim_step(alloc, budget as u64)?;
        return Ok(true);
    }
    if let Some(budget) = number_after(line, "clean ") {
        system.clean_step(budget as u64)?;
        return Ok(true);
    }
    if let Some(budget) = number_after(line, "prepare ") {
        system.prepare_step(budget as u64)?;
        return Ok(true);
    }
    Ok(false)
}

fn ask(alloc: Global, system: &mut Fs<'_, Watched>, call: &Call) -> Result<(), MeasureError> {
    system.call(alloc, call)?;
    Ok(())
}

/// The number that stands after a word.
fn number_after(line: &str, word: &str) -> Option<usize> {
    line.strip_prefix(word)?.parse().ok()
}

/// The call of a line.
fn call_of(alloc: Global, line: &str, number: usize) -> Result<Call, MeasureError> {
    if let Some(count) = number_after(line, "fill ") {
        return Ok(fill(alloc, count)?);
    }
    if let Some(count) = number_after(line, "whole ") {
        return whole(alloc, count);
    }
    if let Some(count) = number_after(line, "many ") {
        return many(alloc, count);
    }
    call_of_script(alloc, line, number)
}

fn call_of_script(alloc: Global, line: &str, number: usize) -> Result<Call, MeasureError> {
    match read_line(alloc, line.as_bytes())? {
        Line::Ask(Ask::Event(Event::Call(call))) => Ok(call),
        _ => Err(MeasureError::Line(number)),
    }
}

/// Writes so many bytes at the start of descriptor 0.
fn fill(alloc: Global, count: usize) -> Result<Call, AllocError> {
    let bytes = vec![in alloc; b'A'; count]?;
    Ok(Call::Pwrite {
        descriptor: 0,
        offset: 0,
        bytes: Sequence::from_vec(bytes),
    })
}

/// Writes a whole file `/a/f` of so many bytes.
fn whole(alloc: Global, count: usize) -> Result<Call, MeasureError> {
    let bytes = vec![in alloc; b'A'; count]?;
    Ok(Call::WriteFile {
        path: Path::parse(alloc, b"/a/f")?,
        bytes: Sequence::from_vec(bytes),
    })
}

/// Writes so many files of 1,000 bytes in `/a` in one call, named by numbers from 1000 on.
fn many(alloc: Global, count: usize) -> Result<Call, MeasureError> {
    let mut files = Sequence::new(alloc);
    for number in 1_000..count.saturating_add(1_000) {
        let name = format!(in alloc; "{number}")?;
        let bytes = vec![in alloc; b'A'; 1_000]?;
        files.push(NamedFile {
            name: Name::parse(alloc, name.as_bytes())?,
            bytes: Sequence::from_vec(bytes),
        })?;
    }
    Ok(Call::WriteFiles {
        directory: Path::parse(alloc, b"/a")?,
        files,
    })
}

/// Makes so many directories, each in the one before.
fn make_directories(
    alloc: Global,
    system: &mut Fs<'_, Watched>,
    depth: usize,
) -> Result<(), MeasureError> {
    let mut text = String::new(alloc);
    for _ in 0..depth {
        text.push_str("/a")?;
        make_directory(alloc, system, text.as_str())?;
    }
    Ok(())
}

/// Makes so many directories in the root, named by numbers from 1000 on.
fn make_siblings(
    alloc: Global,
    system: &mut Fs<'_, Watched>,
    count: usize,
) -> Result<(), MeasureError> {
    for number in 1_000..count.saturating_add(1_000) {
        let path = format!(in alloc; "/{number}")?;
        make_directory(alloc, system, path.as_str())?;
    }
    Ok(())
}

/// Writes so many files without bytes in a directory, named by numbers from 1000 on.
fn write_siblings(
    alloc: Global,
    system: &mut Fs<'_, Watched>,
    directory: &str,
    count: usize,
) -> Result<(), MeasureError> {
    for number in 1_000..count.saturating_add(1_000) {
        let path = format!(in alloc; "{directory}/{number}")?;
        let call = Call::WriteFile {
            path: Path::parse(alloc, path.as_bytes())?,
            bytes: Sequence::new(alloc),
        };
        ask(alloc, system, &call)?;
    }
    Ok(())
}

/// Writes so many files of 20,000 bytes in `/a/a` in lots, named by numbers from 1000 on.
fn write_lots(
    alloc: Global,
    system: &mut Fs<'_, Watched>,
    count: usize,
) -> Result<(), MeasureError> {
    let mut last = None;
    for number in 1_000..count.saturating_add(1_000) {
        let path = format!(in alloc; "/a/a/{number}")?;
        let bytes = vec![in alloc; b'A'; 20_000]?;
        let file = Thing::File(
            Path::parse(alloc, path.as_bytes())?,
            Sequence::from_vec(bytes),
        );
        let taken = take_in(alloc, last, file)?;
        put(alloc, system, taken.ready)?;
        last = Some(taken.last);
    }
    put(alloc, system, last)
}

/// Carries out the events that put a thing, if there is one.
fn put(
    alloc: Global,
    system: &mut Fs<'_, Watched>,
    thing: Option<Thing>,
) -> Result<(), MeasureError> {
    let Some(thing) = thing else {
        return Ok(());
    };
    for event in events_of(alloc, thing)? {
        if let Event::Call(call) = event {
            ask(alloc, system, &call)?;
        }
    }
    Ok(())
}

/// Makes so many directories of 100 files in `/b`, named by numbers from 1000 on: each is made as `/a`
/// and moved.
fn make_full_directories(
    alloc: Global,
    system: &mut Fs<'_, Watched>,
    count: usize,
) -> Result<(), MeasureError> {
    make_directory(alloc, system, "/b")?;
    for number in 1_000..count.saturating_add(1_000) {
        make_directory(alloc, system, "/a")?;
        write_siblings(alloc, system, "/a", 100)?;
        let to = format!(in alloc; "/b/{number}")?;
        let call = Call::Rename {
            old: Path::parse(alloc, b"/a")?,
            new: Path::parse(alloc, to.as_bytes())?,
        };
        ask(alloc, system, &call)?;
    }
    Ok(())
}

fn make_directory(
    alloc: Global,
    system: &mut Fs<'_, Watched>,
    path: &str,
) -> Result<(), MeasureError> {
    let path = Path::parse(alloc, path.as_bytes())?;
    system.mkdir(alloc, &path)?;
    Ok(())
}

/// Writes a byte at each of so many places of descriptor 0: at 8,192, and each 16,384 bytes further on.
fn write_places(
    alloc: Global,
    system: &mut Fs<'_, Watched>,
    count: usize,
) -> Result<(), MeasureError> {
    for number in 0..count {
        let offset = number.saturating_mul(16_384).saturating_add(8_192);
        let line = format!(in alloc; "pwrite 0 {offset} 42")?;
        let call = call_of_script(alloc, line.as_str(), number)?;
        ask(alloc, system, &call)?;
    }
    Ok(())
}

/// Reads 1 MiB of descriptor 0, in pieces of so many bytes.
fn read_pieces(
    alloc: Global,
    system: &mut Fs<'_, Watched>,
    size: usize,
) -> Result<(), MeasureError> {
    for number in 0..MIB.div_ceil(size.max(1)) {
        read_at(alloc, system, number.saturating_mul(size), size)?;
    }
    Ok(())
}

/// Reads so many bytes at each of 64 places of 1 MiB of descriptor 0: at 8,192, and each 405,504 bytes
/// further on, from the start again past its end.
fn read_places(
    alloc: Global,
    system: &mut Fs<'_, Watched>,
    size: usize,
) -> Result<(), MeasureError> {
    for number in 0..64usize {
        let way = number.saturating_mul(405_504).saturating_add(8_192);
        read_at(alloc, system, way % MIB, size)?;
    }
    Ok(())
}

/// Reads so many bytes of descriptor 0 from an offset on.
fn read_at(
    alloc: Global,
    system: &mut Fs<'_, Watched>,
    offset: usize,
    size: usize,
) -> Result<(), MeasureError> {
    let line = format!(in alloc; "pread 0 {offset} {size}")?;
    let call = call_of_script(alloc, line.as_str(), 0)?;
    ask(alloc, system, &call)
}
