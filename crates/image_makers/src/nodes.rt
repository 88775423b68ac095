//! Nodes, lawful or not, by their fields.
use crate::low_bytes::push_word;
use crate::numbers::Numbers;
use std::alloc::{AllocError, Global};

/// The data bytes of a full node of a file, in a block of 4,096 bytes.
pub const FULL: u64 = 4_016;

/// An entry of a directory. Each number is cut to the bytes of its field.
#[derive(Clone, Copy)]
pub struct Entry {
    pub kind: u8,
    pub name: &'static str,
    pub head: u64,
    pub length: u64,
}

/// The entry of a file.
pub fn file(name: &'static str, head: u64, length: u64) -> Entry {
    Entry {
        kind: 1,
        name,
        head,
        length,
    }
}

/// The entry of a directory.
pub fn folder(name: &'static str, block: u64) -> Entry {
    Entry {
        kind: 2,
        name,
        head: block,
        length: 0,
    }
}

/// A node by its fields.
#[derive(Drop)]
pub enum Node {
    /// A directory of these entries, in this order.
    Directory(Vec<Entry>),
    /// A part of a file.
    Body(Body),
    /// A node of a directory of several.
    Chained(Chained),
}

/// A node of a directory of several: empty files that are named by numbers of four digits, so many from
/// one on, and the block of the node after it; as a node that stands alone where it is not chained.
#[derive(Clone, Copy)]
pub struct Chained {
    pub is_chained: bool,
    pub from: u64,
    pub count: u64,
    pub next: u64,
}

/// A part of a file: its index, its first pointers and how many bytes it has.
#[derive(Clone, Copy)]
pub struct Body {
    pub index: u64,
    pub pointers: [u64; 2],
    pub used: u64,
}

/// Names that entries may be given.
const NAMES: [&str; 8] = ["a", "f", "g", "00", ".", "..", "", "a/b"];

impl Node {
    /// A directory of these entries.
    pub fn directory(alloc: Global, entries: &[Entry]) -> Result<Node, AllocError> {
        Ok(Node::Directory(Vec::from_slice(alloc, entries)?))
    }

    /// A part of a file.
    pub fn body(index: u64, pointers: [u64; 2], used: u64) -> Node {
        Node::Body(Body {
            index,
            pointers,
            used,
        })
    }

    /// The bytes of the node.
    pub fn bytes(&self, alloc: Global) -> Result<Vec<u8>, AllocError> {
        match self {
            Node::Directory(entries) => directory_bytes(alloc, entries),
            Node::Body(body) => body_bytes(alloc, body),
            Node::Chained(node) => chained_bytes(alloc, node),
        }
    }

    /// Gives a field of the node another value.
    pub fn change_field(&mut self, numbers: &mut Numbers) {
        match self {
            Node::Directory(entries) => change_entries(entries, numbers),
            Node::Body(body) => change_body(body, numbers),
            Node::Chained(node) => node.next = numbers.odd(),
        }
    }
}

fn directory_bytes(alloc: Global, entries: &[Entry]) -> Result<Vec<u8>, AllocError> {
    let mut used = Vec::new(alloc);
    for entry in entries {
        push_entry(&mut used, entry)?;
    }
    let mut out = Vec::from_slice(alloc, b"UFND")?;
    push_word(&mut out, entries.len() as u64)?;
    push_word(&mut out, used.len() as u64)?;
    push_word(&mut out, 0)?;
    out.extend_from_slice(&used)?;
    Ok(out)
}

fn chained_bytes(alloc: Global, node: &Chained) -> Result<Vec<u8>, AllocError> {
    let mut used = Vec::new(alloc);
    for number in node.from..node.from.saturating_add(node.count) {
        push_numbered(&mut used, number)?;
    }
    let mut out = Vec::from_slice(alloc, if node.is_chained { b"UFNE" } else { b"UFND" })?;
    push_word(&mut out, node.count)?;
    push_word(&mut out, used.len() as u64)?;
    push_word(&mut out, node.next)?;
    out.extend_from_slice(&used)?;
    Ok(out)
}

/// The entry of an empty file that is named by a number below 10,000, of four digits.
fn push_numbered(out: &mut Vec<u8>, number: u64) -> Result<(), AllocError> {
    out.extend_from_slice(&[1, 4])?;
    for place in [1_000, 100, 10, 1] {
        out.push(b'0'.saturating_add((number / place % 10) as u8))?;
    }
    push_word(out, 0)?;
    push_word(out, 0)
}

fn push_entry(out: &mut Vec<u8>, entry: &Entry) -> Result<(), AllocError> {
    out.push(entry.kind)?;
    out.push(u8::try_from(entry.name.len()).unwrap_or(0))?;
    out.extend_from_slice(entry.name.as_bytes())?;
    push_word(out, entry.head)?;
    push_word(out, entry.length)
}

fn body_bytes(alloc: Global, body: &Body) -> Result<Vec<u8>, AllocError> {
    let mut out = Vec::from_slice(alloc, b"UFNB")?;
    push_word(&mut out, body.index)?;
    push_word(&mut out, body.used)?;
    push_word(&mut out, 0)?;
    for slot in 0..16 {
        push_word(&mut out, body.pointers.get(slot).copied().unwrap_or(0))?;
    }
    let used = body.used.min(FULL) as usize;
    out.resize(80_usize.saturating_add(used), b'x')?;
    Ok(out)
}

/// Changes an entry, or the order of two.
fn change_entries(entries: &mut Vec<Entry>, numbers: &mut Numbers) {
    let place = numbers.place(entries.len());
    if numbers.hits(5) {
        entries.rotate_left(place);
        return;
    }
    if let Some(entry) = entries.get_mut(place) {
        change_entry(entry, numbers);
    }
}

fn change_entry(entry: &mut Entry, numbers: &mut Numbers) {
    match numbers.below(4) {
        0 => entry.kind = numbers.pick(&[0, 1, 2, 3], 0),
        1 => entry.name = numbers.pick(&NAMES, "b"),
        2 => entry.head = numbers.odd(),
        _ => entry.length = numbers.odd(),
    }
}

fn change_body(body: &mut Body, numbers: &mut Numbers) {
    let value = numbers.odd();
    match numbers.below(4) {
        0 => body.index = value,
        1 => body.used = value,
        2 => body.pointers[0] = value,
        _ => body.pointers[1] = value,
    }
}
