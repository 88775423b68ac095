//! A script by the call of the program: on a part that is formatted first, and where the driver tells none.
use crate::driver_answers::{all_done, erased_image, told};
use crate::part::{Leaves, order_count, replay};
use crate::sessions::{DONE, SCRIPT};
use flash_simulation::ImageFault;
use fs_types::Fault;
use remote_flash::{LONGEST_IMAGE, StartFault, ToldFlash};
use remote_sessions::{SessionFault, serve_script};
use script_runs::ScriptFault;
use std::alloc::Global;
use std::test::Fail;

/// Why a script on the part of a driver did not run to its end.
#[derive(Clone, Copy, Debug, PartialEq, Eq)]
enum Unserved {
    Start(StartFault),
    Session(SessionFault),
}

/// What came of a call of the program.
#[derive(Drop)]
struct Served {
    /// Why it did not run to its end.
    fault: Option<Unserved>,
    /// What of the script was not read, the replies, and the orders.
    unread: usize,
    replies: Vec<u8>,
    orders: Vec<u8>,
}

/// Serves a script on the part of a driver that tells this.
fn serve(alloc: Global, told: &[u8], history: Option<u32>, script: &str) -> Result<Served, Fail> {
    let mut reader = script.as_bytes();
    let mut replies: Vec<u8> = Vec::new(alloc);
    let mut orders: Vec<u8> = Vec::new(alloc);
    let fault = match ToldFlash::start(alloc, told, &mut orders) {
        Ok(mut flash) => {
            let ended = serve_script(alloc, &mut flash, history, &mut reader, &mut replies);
            ended.err().map(Unserved::Session)
        }
        Err(fault) => Some(Unserved::Start(fault)),
    };
    Ok(Served {
        fault,
        unread: reader.len(),
        replies,
        orders,
    })
}

/// Why nothing is served where this is told, with no line read, no reply and no order.
fn refusal(alloc: Global, told: &[u8], history: Option<u32>) -> Result<Option<Unserved>, Fail> {
    let served = serve(alloc, told, history, "ls /\n")?;
    if served.unread != 5 || !served.replies.is_empty() || !served.orders.is_empty() {
        return Err(Fail::new("a line was read, a reply was written, or an order was given"));
    }
    Ok(served.fault)
}

/// What is told as an image and is none.
const REFUSED: [(&[u8], ImageFault); 3] = [
    (b"UFFSIMG2", ImageFault::NotImage),
    (b"UFFSIMG1\0\x01\0\0", ImageFault::Truncated),
    (
        b"UFFSIMG1\0\x03\0\0\x10\0\0\0\x20\0\0\0",
        ImageFault::BadGeometry,
    ),
];

// Nor is anything served where what is told is too long, or where the part is erased and has no file system.
#[test]
fn nothing_is_served_without_a_file_system(rt: HostRuntime) -> Result<(), Fail> {
    for (bytes, fault) in REFUSED {
        let told = told(rt.alloc(), bytes, &[])?;
        let wanted = Some(Unserved::Start(StartFault::Image(fault)));
        assert_eq!(rt; refusal(rt.alloc(), &told, None)?, wanted, "{bytes:?}");
        assert_eq!(rt; refusal(rt.alloc(), &told, Some(8))?, wanted, "{bytes:?}");
    }
    let longer = refusal(rt.alloc(), &(LONGEST_IMAGE + 1).to_le_bytes(), None)?;
    let trailing = StartFault::Image(ImageFault::Trailing);
    assert_eq!(rt; longer, Some(Unserved::Start(trailing)));
    let told = told(rt.alloc(), &erased_image(rt.alloc(), 20)?, &[])?;
    let wanted = Unserved::Session(SessionFault::Script(ScriptFault::Mount(Fault::NoRecord)));
    assert_eq!(rt; refusal(rt.alloc(), &told, None)?, Some(wanted));
    Ok(())
}

// Where a number of versions is given, a file system is made by orders, and the next start finds what was
// synced.
#[test]
fn a_part_is_formatted_where_that_is_asked(rt: HostRuntime) -> Result<(), Fail> {
    let image = erased_image(rt.alloc(), 20)?;
    let answers = all_done(rt.alloc())?;
    let first = told(rt.alloc(), &image, &answers)?;
    let made = serve(rt.alloc(), &first, Some(8), SCRIPT)?;
    assert_eq!(rt; made.fault, None);
    assert_eq!(rt; made.replies.as_slice(), DONE.as_bytes());
    let part = replay(rt.alloc(), &image, &made.orders, &answers, Leaves::AsShown)?;
    let next = told(rt.alloc(), &part, &[])?;
    let found = serve(rt.alloc(), &next, None, "ls /\nls /a\n")?;
    assert_eq!(rt; found.fault, None);
    assert_eq!(rt;
        found.replies.as_slice(),
        &b"entries 1 a/\nentries 2 f g\n"[..]
    );
    Ok(())
}

// Power goes in the second order of a format: no line is read.
#[test]
fn a_format_that_is_cut_serves_nothing(rt: HostRuntime) -> Result<(), Fail> {
    let told = told(rt.alloc(), &erased_image(rt.alloc(), 20)?, &[1, 3])?;
    let served = serve(rt.alloc(), &told, Some(8), SCRIPT)?;
    let wanted = Some(Unserved::Session(SessionFault::Format(Fault::PowerCut)));
    assert_eq!(rt; served.fault, wanted);
    assert_eq!(rt; (served.unread, served.replies.len()), (SCRIPT.len(), 0));
    assert_eq!(rt; order_count(&served.orders), Some(2));
    Ok(())
}
