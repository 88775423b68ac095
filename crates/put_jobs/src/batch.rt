//! What is put into an image, of all that stands at a name of the host.
ghost use Rattle.std.specs.Prelude.{◌≡◌, ◌⊎◌, ◌++◌, ◌∷◌, [], true, IfOk, IfErr, OnOk, map, option_map, vec_items};
ghost use Rattle.host_interface.specs.Sources.{source_found};
ghost use Rattle.put_jobs.specs.Batches.{IsBatch};
ghost use Rattle.put_jobs.specs.Mirrors.{wants_folder, kept_asked};
ghost use Rattle.put_jobs.specs.Puts as spec;
ghost use Rattle.put_jobs.specs.Puts.{left_in};

use crate::put::Order;
use fs_types::Path;
use host_interface::{Source, SourceKind};
use image_jobs::Failure;
use job_messages::tell_left_out;
use put_lots::{Kept, kept_of};
use std::alloc::{AllocError, Global};
use std::io::Write;

/// What is put into an image.
#[derive(Drop)]
pub struct Batch {
    /// The path below which it is put.
    pub base: Path,
    /// What is left below the path, where all else there is removed.
    pub kept: Option<Vec<Kept>>,
    /// What is put, each in its turn.
    pub sources: Vec<Source>,
}

/// What is put of all that was found at a name of the host. Refused where that is a plain file or a link,
/// and a folder is wanted.
pub(crate) fn batch_of<E: Write>(
    alloc: Global,
    base: Path,
    order: Order<'_>,
    found: Vec<Source>,
    err: &mut E,
) -> Result<Batch, Failure>
    ensures ok { IfOk result (IsBatch order.entry.mirror order.entry.skip_links base (map source_found found.items)) }
    ensures err { IfErr result (λ failure. (failure ≡ Failure.Memory)
        ⊎ ((failure ≡ Failure.NoFolder) × (spec.is_no_folder (wants_folder order.entry.mirror order.entry.skip_links) (map source_found found.items) ≡ true))) }
{
    if is_no_folder(wants_folder(order), &found) {
        return Err(Failure::NoFolder);
    }
    let kept = match kept_asked(alloc, order.mirror, &found) {
        Ok(kept) => kept,
        Err(_) => return Err(Failure::Memory),
    };
    match left_in(alloc, order.skip_links, found, err) {
        Ok(sources) => Ok(Batch {
            base,
            kept,
            sources,
        }),
        Err(_) => Err(Failure::Memory),
    }
}

/// Whether a folder is wanted: something is to be removed, or left out.
pub fn wants_folder(order: Order<'_>) -> bool
    ensures { result ≡ wants_folder order.entry.mirror order.entry.skip_links }
{
    order.mirror || order.skip_links
}

/// Whether a folder is wanted, and what was found is a plain file or a link.
fn is_no_folder(is_wanted: bool, found: &[Source]) -> bool
    ensures { result ≡ spec.is_no_folder is_wanted (map source_found found.now) }
{
    if !is_wanted {
        return false;
    }
    match found {
        [first, ..] => is_file(first.kind) || is_link(first.kind),
        [] => false,
    }
}

fn is_file(kind: SourceKind) -> bool
    ensures { result ≡ spec.is_file kind }
{
    matches!(kind, SourceKind::File(_))
}

/// What is left below the path, where all else there is to be removed.
fn kept_asked(
    alloc: Global,
    mirror: bool,
    found: &[Source],
) -> Result<Option<Vec<Kept>>, AllocError>
    ensures { IfOk result (λ kept. option_map vec_items kept ≡ kept_asked mirror (map source_found found.now)) }
{
    if mirror {
        Ok(Some(kept_of(alloc, found)?))
    } else {
        Ok(None)
    }
}

/// What is left in of what was found. What is left out is told.
fn left_in<E: Write>(
    alloc: Global,
    skip_links: bool,
    found: Vec<Source>,
    err: &mut E,
) -> Result<Vec<Source>, AllocError>
    ensures { IfOk result (λ sources. map source_found sources.items ≡ left_in skip_links (map source_found found.items)) }
{
    let mut sources = Vec::with_capacity(alloc, found.len())?;
    for source in found {
        leave_in(skip_links, &mut sources, source, err)?;
    }
    Ok(sources)
}

/// Appends a source, unless it is left out, which is told.
fn leave_in<E: Write>(
    skip_links: bool,
    sources: &mut Vec<Source>,
    source: Source,
    err: &mut E,
) -> Result<(), AllocError>
    ensures { OnOk result (map source_found sources.new.items ≡ map source_found sources.old.items ++ left_in skip_links (source_found source ∷ [])) }
{
    if is_left_out(skip_links, &source) {
        tell_left_out(&source.name, err);
        return Ok(());
    }
    sources.push(source)?;
    Ok(())
}

/// Whether a source is left out: it is a link, and these are.
fn is_left_out(skip_links: bool, source: &Source) -> bool
    ensures { result ≡ spec.is_left_out skip_links (source_found source.now) }
{
    skip_links && is_link(source.kind)
}

fn is_link(kind: SourceKind) -> bool
    ensures { result ≡ spec.is_link kind }
{
    matches!(kind, SourceKind::Link)
}
