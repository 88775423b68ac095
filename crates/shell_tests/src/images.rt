//! Images that begin an image or hold what is worn and unreadable, and the names of what is wrong.
use flash_model::{Flash, PageView};
use flash_simulation::{ImageFault, SimFlash, decode, encode};
use program_calls::{erased_image, fresh_image};
use std::alloc::{AllocError, Global};
use std::process::Abort;
use std::test::Fail;

/// The bytes, with the one at a place changed.
fn with_byte(alloc: Global, bytes: &[u8], place: usize, byte: u8) -> Result<Vec<u8>, AllocError> {
    let mut changed = Vec::from_slice(alloc, bytes)?;
    if let Some(old) = changed.get_mut(place) {
        *old = byte;
    }
    Ok(changed)
}

/// Whether the page holds this.
fn holds(flash: &SimFlash, number: u32, page: PageView<'_>) -> bool {
    if flash.geometry().page_count() <= number as usize {
        return false;
    }
    flash.page(number) == page
}

/// Asserts that the bytes have this fault.
fn assert_fault<R: Abort>(rt: &R, alloc: Global, bytes: &[u8], fault: ImageFault) {
    let found = decode(alloc, bytes).err();
    let len = bytes.len();
    assert_eq!(rt; found, Some(fault), "{len} bytes");
}

/// Asserts that each beginning of an image is truncated.
fn assert_beginnings<R: Abort>(rt: &R, alloc: Global) -> Result<(), Fail> {
    let image = fresh_image(alloc)?;
    for len in 0..image.len() {
        if let Some(front) = image.get(..len) {
            assert_fault(rt, alloc, front, ImageFault::Truncated);
        }
    }
    Ok(())
}

/// Asserts that worn blocks and unreadable pages are kept.
fn assert_worn_kept<R: Abort>(rt: &R, alloc: Global) -> Result<(), Fail> {
    let image = erased_image(alloc)?;
    let worn = with_byte(alloc, &image, 20, 1)?;
    let changed = with_byte(alloc, &worn, 21, 2)?;
    let flash = decode(alloc, &changed)?;
    assert!(rt; 1 < flash.geometry().blocks && flash.is_worn(0) && !flash.is_worn(1));
    assert!(rt; holds(&flash, 0, PageView::Unreadable) && holds(&flash, 1, PageView::Erased));
    let encoded = encode(alloc, &flash)?;
    assert_eq!(rt; encoded.as_slice(), changed.as_slice());
    Ok(())
}

/// Asserts that a fault is printed by its name.
fn assert_names<R: Abort>(rt: &R, alloc: Global) -> Result<(), Fail> {
    for (fault, name) in [
        (ImageFault::NotImage, "NotImage"),
        (ImageFault::BadGeometry, "BadGeometry"),
        (ImageFault::BadState, "BadState"),
        (ImageFault::Truncated, "Truncated"),
        (ImageFault::Trailing, "Trailing"),
        (ImageFault::Memory, "Memory"),
    ] {
        let printed = format!(in alloc; "{fault}")?;
        assert_eq!(rt; printed.as_str(), name);
    }
    Ok(())
}

#[test]
fn images_are_read_or_told(rt: HostRuntime) -> Result<(), Fail> {
    let alloc = rt.alloc();
    assert_beginnings(&rt, alloc)?;
    assert_worn_kept(&rt, alloc)?;
    assert_names(&rt, alloc)
}
