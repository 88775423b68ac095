//! What a driver tells at the start, whole and not.
use crate::driver_answers::{erased_image, told};
use flash_model::{Flash, Geometry};
use flash_simulation::ImageFault;
use remote_flash::{LONGEST_IMAGE, StartFault, ToldFlash};
use std::alloc::Global;
use std::test::Fail;

/// What a start says of what is told: the sizes of the flash, or why there is none.
fn start(alloc: Global, told: &[u8]) -> Result<Geometry, StartFault> {
    let flash = ToldFlash::start(alloc, told, Vec::<u8>::new(alloc))?;
    Ok(flash.geometry())
}

/// The first number of bytes of what is told after which a start does not say that it was not read whole.
fn first_short(alloc: Global, told: &[u8]) -> Option<usize> {
    for short in 0..told.len() {
        if start(alloc, &told[..short]) != Err(StartFault::Read) {
            return Some(short);
        }
    }
    None
}

// The image has 564 bytes, which are told in eight, the lowest first.
#[test]
fn an_image_is_read_to_its_end(rt: HostRuntime) -> Result<(), Fail> {
    let image = erased_image(rt.alloc(), 32)?;
    let told = told(rt.alloc(), &image, &[])?;
    assert_eq!(rt; told.starts_with(b"\x34\x02\0\0\0\0\0\0U"), true);
    assert_eq!(rt; first_short(rt.alloc(), &told), None);
    let sizes = Geometry {
        page: 256,
        pages: 16,
        blocks: 32,
    };
    assert_eq!(rt; start(rt.alloc(), &told), Ok(sizes));
    Ok(())
}

const REFUSED: [(&[u8], ImageFault); 6] = [
    (b"", ImageFault::Truncated),
    (b"UFFSIMG1\0\x01\0\0", ImageFault::Truncated),
    (b"UFFSIMG2\0\x01\0\0", ImageFault::NotImage),
    (
        b"UFFSIMG1\0\x03\0\0\x10\0\0\0\x20\0\0\0",
        ImageFault::BadGeometry,
    ),
    (
        b"UFFSIMG1\0\x01\0\0\x10\0\0\0\x20\0\0\0\x02",
        ImageFault::BadState,
    ),
    (
        b"UFFSIMG1\0\x01\0\0\x10\0\0\0\x20\0\0\0\0\x03",
        ImageFault::BadState,
    ),
];

// Of the longest image nothing is told but its length; of a longer one nothing more is read.
const LENGTHS: [(u64, StartFault); 3] = [
    (LONGEST_IMAGE, StartFault::Read),
    (LONGEST_IMAGE + 1, StartFault::Image(ImageFault::Trailing)),
    (u64::MAX, StartFault::Image(ImageFault::Trailing)),
];

/// Why there is no flash where these bytes are told as an image.
fn refusal(alloc: Global, bytes: &[u8]) -> Result<Option<StartFault>, Fail> {
    let told = told(alloc, bytes, &[])?;
    Ok(start(alloc, &told).err())
}

#[test]
fn what_is_no_image_is_refused_with_its_word(rt: HostRuntime) -> Result<(), Fail> {
    for (bytes, fault) in REFUSED {
        let refusal = refusal(rt.alloc(), bytes)?;
        assert_eq!(rt; refusal, Some(StartFault::Image(fault)), "{bytes:?}");
    }
    let mut image = erased_image(rt.alloc(), 32)?;
    image.push(0)?;
    let longer = refusal(rt.alloc(), &image)?;
    assert_eq!(rt; longer, Some(StartFault::Image(ImageFault::Trailing)));
    for (length, fault) in LENGTHS {
        let answer = start(rt.alloc(), &length.to_le_bytes());
        assert_eq!(rt; answer, Err(fault), "{length}");
    }
    Ok(())
}
