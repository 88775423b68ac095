//! Images that are made, run and checked in a buffer, with the numbers of refusals.
use flash_model::Geometry;
use image_buffer::{check_buffer, format_buffer, run_buffer};
use std::alloc::Global;
use std::test::Fail;

const SIZES: Geometry = Geometry {
    page: 256,
    pages: 16,
    blocks: 32,
};

// The image of a new file system: 20 bytes, 17 for each block, and two pages with data.
const NEW_IMAGE: usize = 20 + 32 * 17 + 2 * 256;

// Scripts that are run one after the other on one image, with their replies.
const SCRIPTS: [(&str, &str); 6] = [
    (
        "mkdir /a\nsync\nmkdir /b\nls /\n",
        "ok\nok\nok\nentries 2 a/ b/\n",
    ),
    ("ls /\n", "entries 1 a/\n"),
    ("undo\nls /\nsync\n", "ok\nentries 0\nok\n"),
    ("redo\nls /", "ok\nentries 1 a/\n"),
    ("", ""),
    ("mkdir b\n", "err EINVAL 7\n"),
];

// The room of the image and of the replies, the bytes that the image is told to have, a script, and the
// number of the refusal.
const REFUSALS: [(usize, usize, usize, &str, u32); 7] = [
    (NEW_IMAGE, 3, NEW_IMAGE, "ls /\n", 112),
    (NEW_IMAGE, 99, NEW_IMAGE + 1, "ls /\n", 110),
    (NEW_IMAGE, 99, NEW_IMAGE, "mkdir /a\nsync\n", 111),
    (NEW_IMAGE, 0, NEW_IMAGE, "mkdir /a\nsync\n", 111),
    (NEW_IMAGE, 99, NEW_IMAGE - 1, "ls /\n", 104),
    (NEW_IMAGE + 1, 99, NEW_IMAGE + 1, "ls /\n", 105),
    (NEW_IMAGE, 10, NEW_IMAGE, "ls /\n", 0),
];

// Sizes and how many versions are to be kept, the room, and the number of the refusal.
const FORMATS: [(u32, u32, usize, u32); 4] = [
    (300, 8, 9_999, 28),
    (256, 1, 9_999, 7),
    (256, 8, NEW_IMAGE - 1, 111),
    (256, 8, NEW_IMAGE, 0),
];

/// A buffer of so many bytes.
fn buffer_of(alloc: Global, room: usize) -> Result<Vec<u8>, Fail> {
    Ok(vec![in alloc; 0; room]?)
}

#[test]
fn scripts_run_on_an_image(rt: HostRuntime) -> Result<(), Fail> {
    let mut buffer = buffer_of(rt.alloc(), 200_000)?;
    let mut count = format_buffer(rt.alloc(), SIZES, 8, &mut buffer)?;
    for (script, wanted) in SCRIPTS {
        let mut replies = buffer_of(rt.alloc(), 64)?;
        let script = script.as_bytes();
        let written = run_buffer(rt.alloc(), &mut buffer, count, script, &mut replies)?;
        let told = replies.get(..written.replies).unwrap_or(b"");
        assert!(rt; told == wanted.as_bytes(), "{wanted}");
        count = written.image;
        let image = buffer.get(..count).unwrap_or(b"");
        assert_eq!(rt; check_buffer(rt.alloc(), image), Ok(()));
    }
    Ok(())
}

/// The number of what a script is refused for; 0 where it runs.
fn number_of_run(
    alloc: Global,
    rooms: (usize, usize),
    count: usize,
    script: &str,
) -> Result<u32, Fail> {
    let (room, reply_room) = rooms;
    let mut buffer = buffer_of(alloc, room)?;
    if format_buffer(alloc, SIZES, 8, &mut buffer)? != NEW_IMAGE {
        return Err(Fail::new("another image"));
    }
    let mut replies = buffer_of(alloc, reply_room)?;
    let script = script.as_bytes();
    match run_buffer(alloc, &mut buffer, count, script, &mut replies) {
        Ok(_) => Ok(0),
        Err(fault) => Ok(fault.number()),
    }
}

/// The number of what a format is refused for; 0 where it is made.
fn number_of_format(alloc: Global, page: u32, history: u32, room: usize) -> Result<u32, Fail> {
    let mut buffer = buffer_of(alloc, room)?;
    let sizes = Geometry { page, ..SIZES };
    match format_buffer(alloc, sizes, history, &mut buffer) {
        Ok(_) => Ok(0),
        Err(fault) => Ok(fault.number()),
    }
}

/// The image of a flash with all pages erased, in which one byte is another.
fn erased_but(alloc: Global, place: usize, byte: u8) -> Result<Vec<u8>, Fail> {
    let mut image = Vec::from_slice(alloc, b"UFFSIMG1\0\x01\0\0\x10\0\0\0\x20\0\0\0")?;
    image.extend_from_slice(&[0; 32 * 17])?;
    if let Some(at) = image.get_mut(place) {
        *at = byte;
    }
    Ok(image)
}

/// The number of what an image with all pages erased, in which one byte is another, is refused for; 0 where
/// it is not.
fn number_of_check(alloc: Global, place: usize, byte: u8) -> Result<u32, Fail> {
    let image = erased_but(alloc, place, byte)?;
    match check_buffer(alloc, &image) {
        Ok(_) => Ok(0),
        Err(fault) => Ok(fault.number()),
    }
}

/// The number of what a script is refused for on an image with all pages erased; 0 where it runs.
fn number_of_run_on_erased(alloc: Global) -> Result<u32, Fail> {
    let mut image = erased_but(alloc, 0, b'U')?;
    let count = image.len();
    let mut replies = buffer_of(alloc, 99)?;
    match run_buffer(alloc, &mut image, count, b"ls /\n", &mut replies) {
        Ok(_) => Ok(0),
        Err(fault) => Ok(fault.number()),
    }
}

// A byte at a place, and the number of the refusal: a flash with all pages erased holds no record, and other
// bytes are no image.
const IMAGES: [(usize, u8, u32); 4] = [(0, b'U', 27), (20, 2, 103), (8, 1, 102), (7, b'2', 101)];

#[test]
fn what_is_refused_has_its_number(rt: HostRuntime) -> Result<(), Fail> {
    for (room, reply_room, count, script, wanted) in REFUSALS {
        let number = number_of_run(rt.alloc(), (room, reply_room), count, script)?;
        assert_eq!(rt; number, wanted);
    }
    assert_eq!(rt; number_of_run_on_erased(rt.alloc())?, 27);
    for (page, history, room, wanted) in FORMATS {
        let number = number_of_format(rt.alloc(), page, history, room)?;
        assert_eq!(rt; number, wanted);
    }
    for (place, byte, wanted) in IMAGES {
        assert_eq!(rt; number_of_check(rt.alloc(), place, byte)?, wanted);
    }
    Ok(())
}
