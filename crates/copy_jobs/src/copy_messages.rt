//! What is told of a copy on standard error.
use copies::is_kept;
use flash_model::Geometry;
use fs_types::{CpName, Fault, Version};
use image_jobs::Failure;
use job_messages::{tell_refusal, tell_refused_format};
use salvages::{Loss, LossKind, Rest, Salvaged};
use script::print_name;
use script_runs::Refusal;
use std::alloc::{AllocError, Global};
use std::io::{self, Write};

/// Tells that a mount is refused.
pub(crate) fn tell_unmounted<E: Write>(failure: Failure, err: &mut E) {
    if let Failure::System(fault) = failure {
        tell_refusal(Refusal::Fault(fault), "", err);
    }
}

/// Tells that the sizes of a copy are refused, or its format.
pub(crate) fn tell_unformatted<E: Write>(
    alloc: Global,
    failure: Failure,
    sizes: Geometry,
    history: u32,
    err: &mut E,
) {
    if let Failure::System(fault) = failure {
        tell_refused_format(alloc, sizes, history, fault, err);
    }
}

/// Tells why a flash of these sizes has no copy.
pub(crate) fn tell_uncopied<E: Write>(
    alloc: Global,
    failure: Failure,
    sizes: Geometry,
    err: &mut E,
) {
    match failure {
        Failure::System(fault) => tell_refusal(Refusal::Fault(fault), "", err),
        Failure::Refused(Refusal::Fault(Fault::FlashFull)) => tell_full(alloc, sizes, err),
        Failure::Refused(refusal) => tell_refusal(refusal, "", err),
        _ => {}
    }
}

/// Tells that a flash of these sizes is full.
fn tell_full<E: Write>(alloc: Global, sizes: Geometry, err: &mut E) {
    let Geometry {
        page,
        pages,
        blocks,
    } = sizes;
    let full = Refusal::Fault(Fault::FlashFull);
    match format!(in alloc; "{blocks} blocks of {pages} pages of {page} bytes") {
        Ok(text) => tell_refusal(full, text.as_str(), err),
        Err(_) => tell_refusal(full, "", err),
    }
}

/// Tells which of these versions are not copied where so many are kept, if any.
pub(crate) fn tell_dropped<E: Write>(
    versions: &[Version<u32>],
    cursor: usize,
    limit: usize,
    adds: bool,
    err: &mut E,
) {
    let count = versions.len();
    let room = if adds { limit.saturating_sub(1) } else { limit };
    if count <= room {
        return;
    }
    let _ = write!(err, "uffs: dropped versions");
    for (place, version) in versions.iter().enumerate() {
        if !stays(place, cursor, count, limit, adds) {
            let _ = write!(err, " {}", version.serial);
        }
    }
    let _ = writeln!(err);
}

/// Whether the version at a place is copied. Where one more comes after them, which is the present one, the
/// newest are for which there is room beside it.
fn stays(place: usize, cursor: usize, count: usize, limit: usize, adds: bool) -> bool {
    if adds {
        place >= count.saturating_sub(limit.saturating_sub(1))
    } else {
        is_kept(place, cursor, count, limit)
    }
}

/// Tells that each version is lost, since none is whole, and that no checkpoint is copied, each on a line.
pub(crate) fn tell_all_lost<E: Write>(alloc: Global, rest: &Rest, err: &mut E) {
    for serial in &rest.serials {
        let _ = writeln!(err, "uffs: lost version {serial}");
    }
    for name in &rest.names {
        tell_dropped_checkpoint(alloc, name, err);
    }
}

/// Tells that a checkpoint is not copied.
fn tell_dropped_checkpoint<E: Write>(alloc: Global, name: &CpName, err: &mut E) {
    let _ = match name_text(alloc, name.as_bytes()) {
        Ok(text) => writeln!(err, "uffs: dropped checkpoint {text}"),
        Err(_) => writeln!(err, "uffs: dropped checkpoint"),
    };
}

/// Tells which versions and checkpoints are lost, each on a line.
pub(crate) fn tell_lost<E: Write>(alloc: Global, found: &Salvaged, err: &mut E) {
    for serial in &found.lost_versions {
        let _ = writeln!(err, "uffs: lost version {serial}");
    }
    for name in &found.lost_checkpoints {
        tell_lost_checkpoint(alloc, name, err);
    }
}

/// Tells what of a version is lost, each on a line.
pub(crate) fn tell_losses<E: Write>(alloc: Global, losses: &[Loss], err: &mut E) {
    for loss in losses {
        tell_loss(alloc, loss, err);
    }
}

/// Tells that a checkpoint is lost.
fn tell_lost_checkpoint<E: Write>(alloc: Global, name: &CpName, err: &mut E) {
    let _ = match name_text(alloc, name.as_bytes()) {
        Ok(text) => writeln!(err, "uffs: lost checkpoint {text}"),
        Err(_) => writeln!(err, "uffs: lost checkpoint"),
    };
}

/// Tells what is lost at a path. That of the root is a slash.
fn tell_loss<E: Write>(alloc: Global, loss: &Loss, err: &mut E) {
    let path = loss.path.as_slice();
    let spelled: &[u8] = if path.is_empty() { b"/" } else { path };
    let _ = match name_text(alloc, spelled) {
        Ok(text) => tell_loss_at(loss.kind, text.as_str(), err),
        Err(_) => writeln!(err, "uffs: lost path"),
    };
}

/// Tells what is lost at a path that is spelled.
fn tell_loss_at<E: Write>(kind: LossKind, text: &str, err: &mut E) -> io::Result<()> {
    match kind {
        LossKind::File => writeln!(err, "uffs: lost file {text}"),
        LossKind::Directory => writeln!(err, "uffs: lost directory {text}"),
        LossKind::Entries => writeln!(err, "uffs: lost entries of {text}"),
    }
}

/// A name, or a path with its slashes, spelled as in a script.
fn name_text(alloc: Global, name: &[u8]) -> Result<String, AllocError> {
    let mut bytes = Vec::new(alloc);
    print_name(&mut bytes, name)?;
    match String::from_utf8(bytes) {
        Ok(text) => Ok(text),
        Err(_) => Ok(String::new(alloc)),
    }
}
