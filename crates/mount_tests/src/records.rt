//! Records on the anchors, byte for byte.
use anchors::Anchors;
use flash_model::{Flash, Geometry, PageView};
use flash_simulation::SimFlash;
use fs_types::Fault;
use record_format::{PageHead, Record, format_laws, read_payload, write_page, write_payload};
use std::alloc::Global;
use std::test::Fail;

const SIZES: Geometry = Geometry {
    page: 256,
    pages: 16,
    blocks: 32,
};

/// What the first page of a formatted flash begins with: a header, and a payload of 52 bytes. 0 follows.
pub(crate) const FRESH: [u8; 72] =
    *b"UFCR\x01\0\0\0\0\0\0\0\0\0\x01\0\x34\0\0\0\x02\0\0\0\0\x01\0\0\x10\0\0\0\x20\0\0\0\x08\0\0\0\0\x01\0\0\0\0\0\0\x02\0\0\0\0\0\0\0\x08\0\0\0\x01\0\0\0\0\0\0\0\x08\0\0\0";

/// The newest record of a flash whose page 0 begins with these bytes.
fn newest_of(alloc: Global, begin: &[u8]) -> Result<Option<Record>, Fault> {
    let mut page = Vec::from_slice(alloc, begin)?;
    page.resize(256, 0)?;
    let mut flash = SimFlash::new(alloc, SIZES, &[])?;
    let sizes = flash.geometry();
    if !sizes.is_lawful() || sizes.page as usize != page.len() || sizes.page_count() == 0 {
        return Err(Fault::BadGeometry);
    }
    match flash.page(0) {
        PageView::Erased => {}
        _ => return Err(Fault::Invalid),
    }
    let _ = flash.program(0, &page);
    Anchors::new().newest(alloc, &mut flash)
}

/// The bytes of a record of one page.
fn page_of(alloc: Global, record: &Record) -> Result<Vec<u8>, Fault> {
    if !record.is_lawful() {
        return Err(Fault::Invalid);
    }
    format_laws();
    let payload = write_payload(record, record.bad.as_slice());
    let mut page = Vec::with_capacity(alloc, 256)?;
    if payload.len() > 236 {
        return Err(Fault::Invalid);
    }
    let head = PageHead {
        sequence: record.sequence,
        index: 0,
        count: 1,
        used: payload.len() as u16,
    };
    write_page(&mut page, 256, head, payload.as_slice());
    Ok(page)
}

/// The record of a formatted flash, by its fields.
#[test]
fn the_record_of_a_formatted_flash_is_read(rt: HostRuntime) -> Result<(), Fail> {
    let record = newest_of(rt.alloc(), &FRESH)?.ok_or("a record")?;
    let numbers = (
        record.sequence,
        record.format,
        record.limit,
        record.cursor,
        record.next,
        record.last,
    );
    assert_eq!(rt; numbers, (1, 2, 8, 0, 2, 8));
    assert_eq!(rt; (record.geometry, record.dropped), (SIZES, false));
    let counts = [
        record.versions.as_slice().len(),
        record.checkpoints.as_slice().len(),
        record.bad.as_slice().len(),
    ];
    assert_eq!(rt; counts, [1, 0, 0]);
    let version = &record.versions.as_slice()[0];
    assert_eq!(rt; (version.serial, version.root), (1, 8));
    Ok(())
}

/// The record of a formatted flash, with another byte at a place.
fn changed(place: usize, byte: u8) -> [u8; 72] {
    let mut page = FRESH;
    if let Some(changed) = page.get_mut(place) {
        *changed = byte;
    }
    page
}

/// The format of the record that begins so, and whether it is written as that of a formatted flash, to the
/// end of its page.
fn written(alloc: Global, begin: &[u8]) -> Result<Option<(u32, bool)>, Fault> {
    let Some(record) = newest_of(alloc, begin)? else {
        return Ok(None);
    };
    let page = page_of(alloc, &record)?;
    let is_written = match page.strip_prefix(&FRESH) {
        Some(rest) => page.len() == 256 && rest.iter().all(|byte| *byte == 0),
        None => false,
    };
    Ok(Some((record.format, is_written)))
}

/// Another byte at a place of the record of a formatted flash: none, the older format, another one, other
/// sizes, no version kept but one, a cursor past the versions, and a byte that is not looked at. Its format,
/// and whether it is written as the record of a formatted flash; else what it is refused for.
const CHANGED: [(usize, u8, Result<Option<(u32, bool)>, Fault>); 7] = [
    (20, 2, Ok(Some((2, true)))),
    (20, 1, Ok(Some((1, true)))),
    (20, 3, Err(Fault::Damaged)),
    (25, 2, Err(Fault::BadGeometry)),
    (36, 1, Err(Fault::Damaged)),
    (38, 1, Err(Fault::Damaged)),
    (43, 9, Ok(Some((2, true)))),
];

/// What a payload is refused for, on a flash of its sizes and on one of twice as many blocks.
fn refusals_of(alloc: Global, payload: &[u8]) -> [Option<Fault>; 2] {
    let other = Geometry {
        blocks: 64,
        ..SIZES
    };
    [SIZES, other].map(|sizes| read_payload(alloc, sizes, 1, payload).err())
}

/// The older format is written as the newer one. A payload of 15 bytes is too short to tell the sizes; of
/// one of 3,177 bytes, which is too long, the sizes come before the length.
#[test]
fn other_records_are_read_or_refused(rt: HostRuntime) -> Result<(), Fail> {
    for (place, byte, wanted) in CHANGED {
        let answer = written(rt.alloc(), &changed(place, byte));
        assert_eq!(rt; answer, wanted, "{place} {byte}");
    }
    assert_eq!(rt; written(rt.alloc(), &[]), Ok(None));
    let [short, _] = refusals_of(rt.alloc(), &FRESH[20..35]);
    assert_eq!(rt; short, Some(Fault::Damaged));
    let mut long = FRESH[20..].to_vec(rt.alloc())?;
    long.resize(3177, 0)?;
    let wanted = [Some(Fault::Damaged), Some(Fault::BadGeometry)];
    assert_eq!(rt; refusals_of(rt.alloc(), &long), wanted);
    Ok(())
}
