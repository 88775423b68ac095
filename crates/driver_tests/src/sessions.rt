//! A session: a script over a driver that tells what its part holds, and answers its orders from a list.
ghost use Rattle.std.specs.Prelude.{◌≡◌, [], IfSome};

use crate::driver_answers::told;
use flash_model::{Flash, Geometry, PageState};
use flash_simulation::{SimFlash, encode};
use remote_flash::ToldFlash;
use script_runs::run_script_on;
use std::alloc::Global;
use std::io::{Read, Write};
use std::test::Fail;
use undofs::format;

/// The script, and its replies where each order is done.
pub(crate) const SCRIPT: &str =
    "mkdir /a\nwrite /a/f 6869\nsync\nwrite /a/g 01\nundo\nredo\nsync\n";

pub(crate) const DONE: &str = "ok\nok\nok\nok\nok\nok\nok\n";

/// How many orders it gives then. `/a` is two nodes, its own and that of `/`, and a file is three. Each is a
/// block that is erased and a page that is programmed; each `sync` programs a page.
pub(crate) const ORDERS: usize = 2 * (2 + 3 + 3) + 2;

/// The last reply where power went.
pub(crate) const CUT: &str = "err POWERCUT 24\n";

/// The image of a part of 20 blocks of 16 pages of 256 bytes with an empty file system.
pub(crate) fn formatted_image(alloc: Global) -> Result<Vec<u8>, Fail> {
    let sizes = Geometry {
        page: 256,
        pages: 16,
        blocks: 20,
    };
    let mut flash = SimFlash::new(alloc, sizes, &[])?;
    format(alloc, &mut flash, 8)?;
    Ok(encode(alloc, &flash)?)
}

/// The image of the pages that a flash of these sizes shows, by docs/format.md, with no block worn.
pub(crate) fn image_shown<F: Flash>(alloc: Global, flash: &mut F) -> Result<Vec<u8>, Fail> {
    let mut image = Vec::new(alloc);
    image.extend_from_slice(b"UFFSIMG1\0\x01\0\0\x10\0\0\0\x14\0\0\0")?;
    for page in 0..20 * 16 {
        if page % 16 == 0 {
            image.push(0)?;
        }
        push_page(&mut image, flash, page)?;
    }
    Ok(image)
}

/// Appends what a flash shows of a page.
fn push_page<F: Flash>(image: &mut Vec<u8>, flash: &mut F, page: u32) -> Result<(), Fail> {
    let sizes = flash.geometry();
    if sizes.page != 256 || page as usize >= sizes.page_count() {
        return Err(Fail::new("sizes"));
    }
    let mut buffer = [0; 256];
    match flash.read(page, &mut buffer)? {
        PageState::Erased => image.push(0)?,
        PageState::Data => {
            image.push(1)?;
            image.extend_from_slice(&buffer)?;
        }
        PageState::Unreadable => image.push(2)?,
    }
    Ok(())
}

/// The replies to a script on a flash.
pub(crate) fn replies<F: Flash>(
    alloc: Global,
    flash: &mut F,
    script: &str,
) -> Result<String, Fail> {
    let mut reader = script.as_bytes();
    let mut out: Vec<u8> = Vec::new(alloc);
    run_script_on(alloc, &mut reader, &mut out, flash)?;
    Ok(String::from_utf8(out)?)
}

/// What came of a session.
#[derive(Drop)]
pub(crate) struct Session {
    /// The replies.
    pub(crate) replies: String,
    /// The image of what the flash shows at the end.
    pub(crate) shown: Vec<u8>,
    /// The orders.
    pub(crate) orders: Vec<u8>,
}

/// The replies to a script on the flash of a driver, and the image of what it shows then.
pub(crate) fn run<A: Read + Drop, O: Write + Drop>(
    alloc: Global,
    answers: A,
    orders: O,
    script: &str,
) -> Result<(String, Vec<u8>), Fail>
    requires unused { IfSome (O.contents orders) (λ all. all ≡ []) }
{
    let mut flash = ToldFlash::start(alloc, answers, orders)?;
    let replies = replies(alloc, &mut flash, script)?;
    flash.power_on();
    let shown = image_shown(alloc, &mut flash)?;
    Ok((replies, shown))
}

/// The session over a stream of answers.
pub(crate) fn play_over<A: Read + Drop>(alloc: Global, answers: A) -> Result<Session, Fail> {
    let mut orders: Vec<u8> = Vec::new(alloc);
    let (replies, shown) = run(alloc, answers, &mut orders, SCRIPT)?;
    Ok(Session {
        replies,
        shown,
        orders,
    })
}

/// The session of a driver that tells an image and then answers so.
pub(crate) fn play(alloc: Global, image: &[u8], answers: &[u8]) -> Result<Session, Fail> {
    let told = told(alloc, image, answers)?;
    play_over(alloc, told.as_slice())
}
