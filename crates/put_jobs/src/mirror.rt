//! What a put removes first, where it leaves below a path only what it puts there.
ghost use Rattle.std.specs.Prelude.{◌≡◌, ◌++◌, IfOk, IfErr, OnOk};
ghost use Rattle.script_runs.specs.Flashes.{IsDecoded};
ghost use Rattle.image_jobs.specs.Images.{DecodeCause};
ghost use Rattle.inquiries.specs.declared.inquiry.Inquiry.{Inquiry};
ghost use Rattle.fs_types.specs.declared.call.View.{View};
ghost use Rattle.image_jobs.specs.InquiryWords.{UntoldBy};
ghost use Rattle.put_jobs.specs.Batches.{kept_in};
ghost use Rattle.put_jobs.specs.Mirrors.{AreRemoved, IsListed, UnlistedBy, removal_of, removals};

use crate::batch::Batch;
use fs_types::{Event, Path};
use image_jobs::{Failure, flash_of, list_as_planned, of_ask};
use inquiries::Item;
use put_lots::{Kept, is_removed, removal};
use std::alloc::{AllocError, Global};

/// The events that remove what stands below the path in the image that bytes spell and is not left there,
/// each before that which removes the directory in which it stands. None where nothing is to be removed.
pub(crate) fn removed_from(
    alloc: Global,
    bytes: &[u8],
    batch: &Batch,
) -> Result<Vec<Event>, Failure>
    ensures ok { IfOk result (λ events. AreRemoved (IsDecoded bytes.now) batch.now.base (kept_in batch.now) events.items) }
    ensures err { IfErr result (UnlistedBy (IsDecoded bytes.now) (DecodeCause bytes.now) (kept_in batch.now)) }
{
    let Some(kept) = &batch.kept else {
        return Ok(Vec::new(alloc));
    };
    let items = match items_of(alloc, bytes) {
        Ok(items) => items,
        Err(failure) => return Err(failure),
    };
    match removals(alloc, &batch.base, kept, items) {
        Ok(events) => Ok(events),
        Err(_) => Err(Failure::Memory),
    }
}

/// All that stands in the present tree of the flash that bytes spell.
fn items_of(alloc: Global, bytes: &[u8]) -> Result<Vec<Item>, Failure>
    ensures ok { IfOk result (λ items. IsListed (IsDecoded bytes.now) items.items) }
    ensures err { IfErr result (UntoldBy (IsDecoded bytes.now) (DecodeCause bytes.now) (Inquiry.Tree View.Present)) }
{
    let mut flash = match flash_of(alloc, bytes) {
        Ok(flash) => flash,
        Err(failure) => return Err(failure),
    };
    match list_as_planned(alloc, &mut flash) {
        Ok(items) => Ok(items),
        Err(fault) => Err(of_ask(fault)),
    }
}

/// The events that remove what is not left of these items, the last one first.
fn removals(
    alloc: Global,
    base: &Path,
    kept: &[Kept],
    items: Vec<Item>,
) -> Result<Vec<Event>, AllocError>
    ensures { IfOk result (λ events. events.items ≡ removals base.now kept.now items.items) }
{
    let mut left = items;
    let mut events = Vec::new(alloc);
    while let Some(item) = left.pop() {
        push_removal(&mut events, base, kept, &item)?;
    }
    Ok(events)
}

/// Appends the event that removes an item, unless it is left.
fn push_removal(
    events: &mut Vec<Event>,
    base: &Path,
    kept: &[Kept],
    item: &Item,
) -> Result<(), AllocError>
    ensures { OnOk result (events.new.items ≡ events.old.items ++ removal_of base.now kept.now item.now) }
{
    if is_removed(base, kept, &item.path, item.stat) {
        events.push(removal(&item.path, item.stat)?)?;
    }
    Ok(())
}
