//! Marks and sums of a serial NOR part of the dense layout.
ghost use Rattle.std.specs.Prelude.{◌≤◌};

use dense_nor::{DenseLayout, DenseNor, DenseNorFlash, crc32, mark_of};
use flash_model::{DevFault, PageState};
use nor_part::{MemoryNor, Nor, Trouble};
use std::alloc::Global;
use std::test::Fail;
use undofs::Flash;

// The check value of this sum, as lists of such sums have it, and that of no bytes.
#[test]
fn sums_are_those_of_zip(rt: HostRuntime) -> Result<(), Fail> {
    assert_eq!(rt; crc32(b"123456789"), 0xCBF4_3926);
    assert_eq!(rt; crc32(b""), 0);
    assert_eq!(rt; mark_of(b"123456789"), *b"UNOR\x26\x39\xF4\xCB");
    Ok(())
}

// The pages of a block, for its sectors.
#[test]
fn pages_tell_the_sectors(rt: HostRuntime) -> Result<(), Fail> {
    for (sectors, pages) in [(2, 31), (3, 46), (4, 62), (8, 124), (16, 248), (64, 992)] {
        let layout = DenseLayout::of(sectors);
        let found = layout.map(|layout| layout.data_pages());
        assert_eq!(rt; found, Some(pages));
    }
    assert!(rt; DenseLayout::of(1).is_none() && DenseLayout::of(65).is_none());
    Ok(())
}

/// A flash over a part, with blocks of so many sectors.
fn over(alloc: Global, part: MemoryNor, sectors: u32) -> Result<DenseNorFlash<MemoryNor>, Fail> {
    let Some(layout) = DenseLayout::of(sectors) else {
        return Err(Fail::new("no layout"));
    };
    Ok(DenseNorFlash::new(alloc, part, layout)?)
}

/// One over a blank part of 16 blocks.
fn blank(alloc: Global, sectors: u32) -> Result<DenseNorFlash<MemoryNor>, Fail>
    requires { sectors ≤ 64 }
{
    over(alloc, MemoryNor::new(alloc, 16 * sectors)?, sectors)
}

/// What a page is, and whether its bytes are 7.
fn look<F: Flash>(flash: &mut F, page: u32) -> Result<(PageState, bool), Fail> {
    let sizes = flash.geometry();
    if sizes.page != 256 || sizes.page_count() <= page as usize {
        return Err(Fail::new("no such page"));
    }
    let mut bytes = [0; 256];
    let state = flash.read(page, &mut bytes)?;
    Ok((state, bytes == [7; 256]))
}

/// Programs a page with bytes of 7. Whether that was done; it is not where the page is not erased.
fn is_filled<F: Flash>(flash: &mut F, page: u32) -> Result<bool, Fail> {
    let sizes = flash.geometry();
    if sizes.page != 256 || sizes.page_count() <= page as usize {
        return Err(Fail::new("no such page"));
    }
    let state = flash.read(page, &mut [0; 256])?;
    if state != PageState::Erased {
        return Ok(false);
    }
    Ok(flash.program(page, &[7; 256]).is_ok())
}

/// Erases the first block. Whether that was done.
fn is_first_erased<F: Flash>(flash: &mut F) -> Result<bool, Fail> {
    if flash.geometry().blocks == 0 {
        return Err(Fail::new("no block"));
    }
    Ok(flash.erase(0).is_ok())
}

// A bit of the data of a page is cleared on the part, behind the back of the flash: the page is unreadable
// then, and the one beside it stays.
#[test]
fn a_flipped_bit_is_seen(rt: HostRuntime) -> Result<(), Fail> {
    let mut flash = blank(rt.alloc(), 2)?;
    assert!(rt; is_filled(&mut flash, 31)? && is_filled(&mut flash, 32)?);
    assert!(rt; !is_filled(&mut flash, 31)?);
    let mut part = flash.into_part();
    if 32 < part.page_count() {
        part.program(32, &[3])?;
    }
    let mut flash = over(rt.alloc(), part, 2)?;
    assert_eq!(rt; look(&mut flash, 31)?, (PageState::Unreadable, false));
    assert_eq!(rt; look(&mut flash, 32)?, (PageState::Data, true));
    Ok(())
}

// What is asked of a part first: power goes within the program of a mark, and the marks beside it stay.
#[test]
fn a_torn_mark_leaves_those_beside_it(rt: HostRuntime) -> Result<(), Fail> {
    let mut flash = blank(rt.alloc(), 2)?;
    assert!(rt; is_filled(&mut flash, 0)? && is_filled(&mut flash, 2)?);
    flash.plan(1, Trouble::CutWithin);
    assert!(rt; !is_filled(&mut flash, 1)?);
    flash.forget_plan();
    flash.power_on();
    assert_eq!(rt; look(&mut flash, 0)?, (PageState::Data, true));
    assert_eq!(rt; look(&mut flash, 1)?, (PageState::Unreadable, false));
    assert_eq!(rt; look(&mut flash, 2)?, (PageState::Data, true));
    Ok(())
}

/// How many pages of a full block are whole where power goes in its erase, after so many operations of the
/// part. None where a page has other bytes.
fn whole_after_cut(alloc: Global, good: u64, trouble: Trouble) -> Result<Option<u32>, Fail> {
    let mut flash = blank(alloc, 2)?;
    for page in 0..31 {
        is_filled(&mut flash, page)?;
    }
    flash.plan(good, trouble);
    is_first_erased(&mut flash)?;
    flash.forget_plan();
    flash.power_on();
    let mut whole = 0u32;
    for page in 0..31 {
        match look(&mut flash, page)? {
            (PageState::Data, true) => whole = whole.saturating_add(1),
            (PageState::Data, false) => return Ok(None),
            _ => {}
        }
    }
    Ok(Some(whole))
}

// The second: an erase that power cuts leaves no page with other bytes. Once the marks are 0 none has any.
#[test]
fn a_cut_erase_shows_no_other_bytes(rt: HostRuntime) -> Result<(), Fail> {
    for good in 0..3 {
        for trouble in [Trouble::CutBefore, Trouble::CutWithin, Trouble::CutAfter] {
            let whole = whole_after_cut(rt.alloc(), good, trouble)?;
            let is_kept = good == 0 && trouble == Trouble::CutBefore;
            assert_eq!(rt;
                whole,
                Some(if is_kept { 31 } else { 0 }),
                "{good} {trouble:?}"
            );
        }
    }
    Ok(())
}

// The third: where 0 was to be programmed over a mark and that failed, the page is not taken for an erased
// one.
#[test]
fn a_failed_zero_leaves_a_trace(rt: HostRuntime) -> Result<(), Fail> {
    let mut part = MemoryNor::new(rt.alloc(), 32)?;
    part.plan(0, Trouble::Fails);
    if 31 < part.page_count() {
        assert_eq!(rt; part.program_dense(31, &[0; 8]), Err(DevFault::Failed));
    }
    let mut flash = over(rt.alloc(), part, 2)?;
    assert_eq!(rt; look(&mut flash, 0)?, (PageState::Unreadable, false));
    assert_eq!(rt; look(&mut flash, 1)?, (PageState::Erased, false));
    Ok(())
}

// The fourth: a page of marks takes 32 of them, and 0 over them all.
#[test]
fn a_page_takes_33_programs(rt: HostRuntime) -> Result<(), Fail> {
    let mut flash = blank(rt.alloc(), 3)?;
    for page in 0..46 {
        assert!(rt; is_filled(&mut flash, page)?);
    }
    for page in 0..46 {
        assert_eq!(rt; look(&mut flash, page)?, (PageState::Data, true));
    }
    assert!(rt; is_first_erased(&mut flash)?);
    for page in 0..46 {
        assert_eq!(rt; look(&mut flash, page)?, (PageState::Erased, false));
    }
    Ok(())
}
