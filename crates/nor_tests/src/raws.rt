//! The bytes that `raw_part` makes, programmed into a part in memory.
use dense_nor::{DenseLayout, DenseNorFlash};
use flash_model::Geometry;
use flash_simulation::SimFlash;
use nor_part::{MemoryNor, Nor, NorFlash};
use raw_part::raw_of;
use script_runs::run_script_on;
use std::alloc::Global;
use std::test::Fail;
use undofs::{Flash, format};

/// What a script is answered.
fn replies<F: Flash>(alloc: Global, flash: &mut F, script: &str) -> Result<String, Fail> {
    let mut reader = script.as_bytes();
    let mut out: Vec<u8> = Vec::new(alloc);
    run_script_on(alloc, &mut reader, &mut out, flash)?;
    Ok(String::from_utf8(out)?)
}

/// Programs bytes into a part, page by page.
fn program_all(part: &mut MemoryNor, bytes: &[u8]) {
    for (page, chunk) in bytes.chunks(256).enumerate() {
        if page < part.page_count() && chunk.len() <= 256 {
            let _ = part.program(page, chunk);
        }
    }
}

/// A part of 64 sectors with the bytes of an image of 32 blocks, in which a file was made.
fn part_of_image(alloc: Global, pages: u32) -> Result<MemoryNor, Fail> {
    let sizes = Geometry {
        page: 256,
        pages,
        blocks: 32,
    };
    let mut flash = SimFlash::new(alloc, sizes, &[])?;
    format(alloc, &mut flash, 8)?;
    replies(alloc, &mut flash, "mkdir /a\nwrite /a/f 6869\nsync\n")?;
    let mut part = MemoryNor::new(alloc, 64)?;
    program_all(&mut part, &raw_of(alloc, &flash)?);
    Ok(part)
}

#[test]
fn a_part_with_the_bytes_of_an_image_has_its_files(rt: HostRuntime) -> Result<(), Fail> {
    let alloc = rt.alloc();
    let asked = "read /a/f 0 9\nundo\nls /a\nsync\n";
    let wanted = "data 6869\nok\nentries 0\nok\n";
    let mut sure = NorFlash::new(alloc, part_of_image(alloc, 16)?)?;
    assert_eq!(rt; replies(alloc, &mut sure, asked)?.as_str(), wanted);
    let Some(layout) = DenseLayout::of(2) else {
        return Err(Fail::new("no layout"));
    };
    let mut dense = DenseNorFlash::new(alloc, part_of_image(alloc, 31)?, layout)?;
    assert_eq!(rt; replies(alloc, &mut dense, asked)?.as_str(), wanted);
    Ok(())
}
