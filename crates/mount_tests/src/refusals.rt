//! Mounts that are refused leave the flash as it was.
use crate::flashes::{SIZES, Worked, formatted};
use flash_model::{FaultKind, Flash, Planned};
use flash_simulation::{SimFlash, encode};
use fs_types::Fault;
use std::alloc::Global;
use std::test::Fail;
use undofs::{Fs, mount_with};

/// A flash of which no mount is answered.
#[derive(Clone, Copy, Debug)]
enum Unmountable {
    /// No record was ever written.
    Blank,
    /// The newest record is there twice.
    TwoNewest,
    /// The newest record keeps more versions than there may be.
    Damaged,
    /// The newest record tells other sizes.
    OtherSizes,
    /// The first read fails.
    FailedRead,
    /// Power goes in the first read.
    CutRead,
}

/// Each of them, and what a mount of it is refused for.
const REFUSALS: [(Unmountable, Fault); 6] = [
    (Unmountable::Blank, Fault::NoRecord),
    (Unmountable::TwoNewest, Fault::Damaged),
    (Unmountable::Damaged, Fault::Damaged),
    (Unmountable::OtherSizes, Fault::BadGeometry),
    (Unmountable::FailedRead, Fault::ReadFailed),
    (Unmountable::CutRead, Fault::PowerCut),
];

impl Unmountable {
    fn flash(self, alloc: Global) -> Result<SimFlash, Fault> {
        match self {
            Unmountable::Blank => SimFlash::new(alloc, SIZES, &[]),
            Unmountable::TwoNewest => Worked::Record(1, &[]).flash(alloc),
            Unmountable::Damaged => Worked::Record(0, &[(36, 129)]).flash(alloc),
            Unmountable::OtherSizes => Worked::Record(0, &[(25, 2)]).flash(alloc),
            Unmountable::FailedRead => formatted_with(alloc, FaultKind::ReadFail),
            Unmountable::CutRead => formatted_with(alloc, FaultKind::ReadCut),
        }
    }
}

/// A formatted flash whose next operation of the kind's class has this fault.
fn formatted_with(alloc: Global, kind: FaultKind) -> Result<SimFlash, Fault> {
    let mut flash = formatted(alloc, SIZES, 8)?;
    flash.plan_fault(1, kind)?;
    Ok(flash)
}

/// How a flash is mounted.
#[derive(Clone, Copy, Debug)]
enum Mounting {
    Mount,
    MountWith(usize),
    MountOrRelease,
    MountWithOrRelease(usize),
    /// A system without its flash.
    System(usize),
}

const MOUNTINGS: [Mounting; 4] = [
    Mounting::Mount,
    Mounting::MountWith(8),
    Mounting::MountOrRelease,
    Mounting::MountWithOrRelease(8),
];

impl Mounting {
    /// What a mount of the flash is refused for.
    fn refusal(self, alloc: Global, flash: &mut SimFlash) -> Option<Fault> {
        match self {
            Mounting::Mount => Fs::mount(alloc, flash).err(),
            Mounting::MountWith(nodes) => Fs::mount_with(alloc, flash, nodes).err(),
            Mounting::MountOrRelease => {
                let refused = Fs::mount_or_release(alloc, flash).err()?;
                Some(refused.fault)
            }
            Mounting::MountWithOrRelease(nodes) => {
                let refused = Fs::mount_with_or_release(alloc, flash, nodes).err()?;
                Some(refused.fault)
            }
            Mounting::System(nodes) => mount_with(alloc, flash, nodes).err(),
        }
    }
}

/// What a flash holds, as the bytes of its image: every page and every worn block. And how many
/// programs and erases it was asked for.
fn held(alloc: Global, flash: &SimFlash) -> Result<(Vec<u8>, u64, u64), Fault> {
    let image = encode(alloc, flash).map_err(|_| Fault::NoMemory)?;
    let counts = flash.counts();
    Ok((image, counts.programs, counts.erases))
}

/// Whether a mount of it is refused so, and leaves what the flash holds.
fn is_refused(
    alloc: Global,
    unmountable: Unmountable,
    mounting: Mounting,
    fault: Fault,
) -> Result<bool, Fault> {
    let mut flash = unmountable.flash(alloc)?;
    let before = held(alloc, &flash)?;
    let refusal = mounting.refusal(alloc, &mut flash);
    Ok(refusal == Some(fault) && held(alloc, &flash)? == before)
}

#[test]
fn a_refused_mount_leaves_the_flash(rt: HostRuntime) -> Result<(), Fail> {
    for (unmountable, fault) in REFUSALS {
        for mounting in MOUNTINGS {
            let is_left = is_refused(rt.alloc(), unmountable, mounting, fault)?;
            assert!(rt; is_left, "{mounting:?} {unmountable:?}");
        }
    }
    Ok(())
}

/// What a mount with another number of nodes is refused for, and whether it left what the flash holds and
/// asked for no read.
fn unread(
    alloc: Global,
    flash: &mut SimFlash,
    mounting: Mounting,
) -> Result<(Option<Fault>, bool), Fault> {
    let before = (held(alloc, flash)?, flash.counts().reads);
    let refusal = mounting.refusal(alloc, flash);
    let is_same = (held(alloc, flash)?, flash.counts().reads) == before;
    Ok((refusal, is_same))
}

/// A number of nodes that is not 1 to 64 is refused before any read.
#[test]
fn nodes_in_memory_are_1_to_64(rt: HostRuntime) -> Result<(), Fail> {
    let mut flash = formatted(rt.alloc(), SIZES, 8)?;
    for nodes in [0, 1, 64, 65, usize::MAX] {
        let is_lawful = nodes == 1 || nodes == 64;
        let wanted = if is_lawful {
            (None, false)
        } else {
            (Some(Fault::Invalid), true)
        };
        for mounting in [
            Mounting::MountWith(nodes),
            Mounting::MountWithOrRelease(nodes),
            Mounting::System(nodes),
        ] {
            let answer = unread(rt.alloc(), &mut flash, mounting)?;
            assert_eq!(rt; answer, wanted, "{mounting:?}");
        }
    }
    Ok(())
}

/// The flash that a refusal gives back is the one that was lent: the planned fault has come, and it
/// mounts then.
#[test]
fn a_released_flash_is_mounted(rt: HostRuntime) -> Result<(), Fail> {
    let mut flash = Unmountable::FailedRead.flash(rt.alloc())?;
    let before = flash.counts().reads;
    let refused = Fs::mount_or_release(rt.alloc(), &mut flash)
        .err()
        .ok_or("refused")?;
    assert_eq!(rt; refused.flash.counts().reads, before.saturating_add(1));
    assert_eq!(rt; Mounting::Mount.refusal(rt.alloc(), refused.flash), None);
    Ok(())
}
