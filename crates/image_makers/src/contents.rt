//! What is put on a flash: a record, and nodes in data blocks.
use crate::drafts::Draft;
use crate::nodes::{Entry, FULL, Node, file, folder};
use crate::numbers::Numbers;
use crate::records::Record;
use std::alloc::{AllocError, Global};

/// The sizes of most flashes: pages of 256 bytes, 16 of them a block, 32 blocks.
pub const SIZES: [u64; 3] = [256, 16, 32];

/// A record and nodes, each with its block.
#[derive(Drop)]
pub struct Contents {
    pub record: Record,
    pub nodes: Vec<(u64, Node)>,
}

impl Contents {
    /// A new file system.
    pub fn fresh(alloc: Global, sizes: [u64; 3]) -> Result<Contents, AllocError> {
        let mut contents = Contents {
            record: Record::new(alloc, sizes),
            nodes: Vec::new(alloc),
        };
        contents.record.versions.push((1, 8))?;
        contents.add_directory(alloc, 8, &[])?;
        Ok(contents)
    }

    /// A file system with a few versions, drawn by numbers. Its record is of either format.
    pub fn drawn(alloc: Global, numbers: &mut Numbers) -> Result<Contents, AllocError> {
        let mut contents = Contents::fresh(alloc, SIZES)?;
        contents.add_small_files(alloc)?;
        if numbers.hits(3) {
            contents.add_long_file(alloc)?;
        }
        if numbers.hits(2) {
            contents.record.checkpoints.push(("v", 11))?;
        }
        if numbers.hits(4) {
            contents.record.bad.push(numbers.below(8))?;
            contents
                .record
                .bad
                .push(numbers.below(16).saturating_add(16))?;
        }
        if numbers.hits(2) {
            contents.record.format = 1;
        }
        let versions = contents.record.versions.len();
        contents.record.cursor = numbers.below(versions as u64);
        contents.record.dropped = u8::try_from(numbers.below(2)).unwrap_or(0);
        Ok(contents)
    }

    /// Two versions more: a directory and a file below the root, then a file in the directory.
    fn add_small_files(&mut self, alloc: Global) -> Result<(), AllocError> {
        self.add_directory(alloc, 9, &[])?;
        self.nodes.push((10, Node::body(0, [0, 0], 2)))?;
        self.add_directory(alloc, 11, &[folder("a", 9), file("f", 10, 2)])?;
        self.add_directory(alloc, 12, &[file("f", 10, 1), file("g", 0, 0)])?;
        self.add_directory(alloc, 13, &[folder("a", 12), file("f", 10, 2)])?;
        self.add_version(3, 11)?;
        self.add_version(5, 13)
    }

    /// A version more, with a file of three nodes.
    fn add_long_file(&mut self, alloc: Global) -> Result<(), AllocError> {
        self.nodes.push((14, Node::body(0, [0, 0], FULL)))?;
        self.nodes.push((15, Node::body(1, [14, 0], FULL)))?;
        self.nodes.push((16, Node::body(2, [15, 14], 9)))?;
        let length = FULL.saturating_mul(2).saturating_add(9);
        self.add_directory(alloc, 17, &[folder("a", 12), file("g", 16, length)])?;
        self.add_version(6, 17)
    }

    /// A directory in a block.
    pub fn add_directory(
        &mut self,
        alloc: Global,
        block: u64,
        entries: &[Entry],
    ) -> Result<(), AllocError> {
        self.nodes.push((block, Node::directory(alloc, entries)?))?;
        Ok(())
    }

    /// A version with this root, which was taken last.
    pub fn add_version(&mut self, serial: u64, root: u64) -> Result<(), AllocError> {
        self.record.versions.push((serial, root))?;
        self.record.next = serial.saturating_add(1);
        self.record.last = root;
        Ok(())
    }

    /// A flash of these sizes that holds this, with the record from its first page on.
    pub fn draft(&self, alloc: Global, sizes: [u64; 3]) -> Result<Draft, AllocError> {
        let mut draft = Draft::new(alloc, sizes)?;
        self.put_nodes(alloc, &mut draft)?;
        put_record(alloc, &mut draft, &self.record, 0)?;
        Ok(draft)
    }

    /// Puts the nodes into their blocks.
    fn put_nodes(&self, alloc: Global, draft: &mut Draft) -> Result<(), AllocError> {
        for (block, node) in &self.nodes {
            let bytes = node.bytes(alloc)?;
            let first = draft.first_page(*block);
            draft.put(alloc, first, &bytes)?;
        }
        Ok(())
    }
}

/// Puts a record into pages from one on, and answers the page after it.
pub fn put_record(
    alloc: Global,
    draft: &mut Draft,
    record: &Record,
    first: usize,
) -> Result<usize, AllocError> {
    let mut next = first;
    for page in record.pages(alloc, draft.page_bytes())? {
        draft.put(alloc, next, &page)?;
        next = next.saturating_add(1);
    }
    Ok(next)
}
