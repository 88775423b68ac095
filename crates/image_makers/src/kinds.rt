//! The kinds of images, and the image of a number.
use crate::bad_lists::bad_blocks;
use crate::chains::chains;
use crate::contents::{Contents, SIZES};
use crate::halves::half_record;
use crate::numbers::Numbers;
use crate::shared::shared_directories;
use std::alloc::{AllocError, Global};

/// What is done to an image.
#[derive(Clone, Copy)]
pub enum Kind {
    /// Bytes of the record are changed.
    RecordBytes,
    /// Bytes of a node are changed.
    NodeBytes,
    /// Bytes of the image are changed, those among them that tell a worn block and the state of a page.
    ImageBytes,
    /// Fields of the record have other values, and its pages are made anew.
    RecordFields,
    /// Fields of a node have other values, and it is made anew.
    NodeFields,
    /// Up to 17 levels of directories, of which several names lead to the same one.
    SharedDirectories,
    /// Of the newest record a part is there.
    HalfRecords,
    /// Up to 257 blocks are listed as bad.
    BadBlocks,
    /// The greatest serials and sequences.
    GreatestNumbers,
    /// The record tells other sizes.
    OtherSizes,
    /// A root of several nodes, which two versions share.
    Chains,
}

/// Each kind.
pub const KINDS: [Kind; 11] = [
    Kind::RecordBytes,
    Kind::NodeBytes,
    Kind::ImageBytes,
    Kind::RecordFields,
    Kind::NodeFields,
    Kind::SharedDirectories,
    Kind::HalfRecords,
    Kind::BadBlocks,
    Kind::GreatestNumbers,
    Kind::OtherSizes,
    Kind::Chains,
];

impl Kind {
    /// What is printed for it.
    pub fn name(self) -> &'static str {
        match self {
            Kind::RecordBytes => "bytes of records",
            Kind::NodeBytes => "bytes of nodes",
            Kind::ImageBytes => "bytes of images",
            Kind::RecordFields => "fields of records",
            Kind::NodeFields => "fields of nodes",
            Kind::SharedDirectories => "shared directories",
            Kind::HalfRecords => "half records",
            Kind::BadBlocks => "bad blocks",
            Kind::GreatestNumbers => "greatest numbers",
            Kind::OtherSizes => "other sizes",
            Kind::Chains => "chains of nodes",
        }
    }

    /// Whether its images have directories of several nodes.
    pub fn is_chains(self) -> bool {
        matches!(self, Kind::Chains)
    }

    /// An image of this kind, drawn by numbers.
    pub fn image(self, alloc: Global, numbers: &mut Numbers) -> Result<Vec<u8>, AllocError> {
        match self {
            Kind::RecordBytes => record_bytes(alloc, numbers),
            Kind::NodeBytes => node_bytes(alloc, numbers),
            Kind::ImageBytes => image_bytes(alloc, numbers),
            Kind::RecordFields => record_fields(alloc, numbers),
            Kind::NodeFields => node_fields(alloc, numbers),
            Kind::SharedDirectories => shared_directories(alloc, numbers),
            Kind::HalfRecords => half_record(alloc, numbers),
            Kind::BadBlocks => bad_blocks(alloc, numbers),
            Kind::GreatestNumbers => greatest_numbers(alloc, numbers),
            Kind::OtherSizes => other_sizes(alloc, numbers),
            Kind::Chains => chains(alloc, numbers),
        }
    }
}

/// Changes one byte, or two.
fn change_bytes(bytes: &mut [u8], numbers: &mut Numbers) {
    for _ in 0..=numbers.below(2) {
        let place = numbers.place(bytes.len());
        let byte = numbers.byte();
        if let Some(changed) = bytes.get_mut(place) {
            *changed = byte;
        }
    }
}

fn record_bytes(alloc: Global, numbers: &mut Numbers) -> Result<Vec<u8>, AllocError> {
    let contents = Contents::drawn(alloc, numbers)?;
    let mut draft = contents.draft(alloc, SIZES)?;
    for (number, page) in contents.record.pages(alloc, 256)?.into_iter().enumerate() {
        let mut page = page;
        change_bytes(&mut page, numbers);
        draft.put(alloc, number, &page)?;
    }
    draft.image(alloc)
}

fn node_bytes(alloc: Global, numbers: &mut Numbers) -> Result<Vec<u8>, AllocError> {
    let contents = Contents::drawn(alloc, numbers)?;
    let mut draft = contents.draft(alloc, SIZES)?;
    let place = numbers.place(contents.nodes.len());
    if let Some((block, node)) = contents.nodes.get(place) {
        let mut bytes = node.bytes(alloc)?;
        let most = bytes.len().min(128);
        let (front, _) = bytes.split_at_mut(most);
        change_bytes(front, numbers);
        let first = draft.first_page(*block);
        draft.put(alloc, first, &bytes)?;
    }
    draft.image(alloc)
}

/// A few blocks are worn, and a page may be unreadable. Of every second image bytes are changed.
fn image_bytes(alloc: Global, numbers: &mut Numbers) -> Result<Vec<u8>, AllocError> {
    let mut draft = Contents::drawn(alloc, numbers)?.draft(alloc, SIZES)?;
    for _ in 0..numbers.below(4) {
        draft.wear(numbers.place(32));
    }
    if numbers.hits(4) {
        draft.tear(numbers.place(512));
    }
    let mut image = draft.image(alloc)?;
    if numbers.hits(2) {
        change_bytes(&mut image, numbers);
    }
    Ok(image)
}

fn record_fields(alloc: Global, numbers: &mut Numbers) -> Result<Vec<u8>, AllocError> {
    let mut contents = Contents::drawn(alloc, numbers)?;
    contents.record.change_field(numbers)?;
    contents.draft(alloc, SIZES)?.image(alloc)
}

fn node_fields(alloc: Global, numbers: &mut Numbers) -> Result<Vec<u8>, AllocError> {
    let mut contents = Contents::drawn(alloc, numbers)?;
    let place = numbers.place(contents.nodes.len());
    if let Some((_, node)) = contents.nodes.get_mut(place) {
        node.change_field(numbers);
    }
    contents.draft(alloc, SIZES)?.image(alloc)
}

/// The next serial is the greatest number or near it, and so are the last version's serial and the
/// record's sequence, or not.
fn greatest_numbers(alloc: Global, numbers: &mut Numbers) -> Result<Vec<u8>, AllocError> {
    let mut contents = Contents::drawn(alloc, numbers)?;
    let next = u64::MAX.saturating_sub(numbers.below(3));
    contents.record.next = next;
    if let Some(version) = contents.record.versions.last_mut() {
        version.0 = next.saturating_sub(numbers.below(3));
    }
    if numbers.hits(2) {
        contents.record.sequence = u64::MAX.saturating_sub(numbers.below(2));
    }
    contents.draft(alloc, SIZES)?.image(alloc)
}

/// The record of a flash of other sizes.
fn other_sizes(alloc: Global, numbers: &mut Numbers) -> Result<Vec<u8>, AllocError> {
    let mut contents = Contents::drawn(alloc, numbers)?;
    let size = numbers.odd();
    contents.record.change_size(numbers, size);
    contents.draft(alloc, SIZES)?.image(alloc)
}
