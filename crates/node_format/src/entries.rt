//! One node of a directory: its entries, and the block of the node after it.
ghost use Rattle.std.specs.Prelude.{◌≡◌, ℕ, ◌≤◌, ◌⊎◌, ◌&&◌, ◌==◌, nat_le, nat_lt, List, [], length, min, take, drop, true, Some, IfOk, IfSome};
ghost use Rattle.std.specs.Option.{option_map, option_and_then};
ghost use Rattle.fs_types.specs.declared.limits.TheConstants.{MIN_BLOCK_BYTES, NODE_ENTRIES};
ghost use Rattle.node_format.specs.Headers.{IsNode, directory_header, chain_magic, field};
ghost use Rattle.node_format.specs.Items.{named_place};
ghost use Rattle.node_format.specs.Directories.{entries_at};
ghost use Rattle.node_format.specs.Edits.{IsSplit};
ghost use Rattle.node_format.specs.Links.{Link, IsLink, link, link_at, chain_bytes};
ghost use Rattle.node_format.specs.Links as spec;

use crate::entry::entry_of;
use crate::entry_list::{EntryList, entries_of};
use crate::headers::{CHAIN_MAGIC, DIRECTORY_MAGIC, MOST_ENTRIES};
use crate::split::{Split, split_entries};
use fields::{push_u32, u32_at};
use std::alloc::{AllocError, Global};
use std::marker::Model;

/// One node of a directory: whether it is one of a chain, its entries, at most 32, and the block of
/// the node after it. A node that another comes after has 32 entries.
#[derive(Drop)]
pub struct Entries<'a> {
    chained: bool,
    list: EntryList<'a>,
    next: u32,
}

impl<'a> Model for Entries<'a> {
    ghost use Rattle.node_format.specs.Links.{Link, link};

    ghost Value = { Link };

    ghost view = { λ e. link e.chained e.next e.list };
}

impl<'a> Entries<'a> {
    /// What the bytes say, as a node of a directory, or None where they are none.
    pub fn of(bytes: &'a [u8]) -> Option<Self>
        ensures exact { result ≡ link_at bytes.now }

        // What is read is spelled so, and what is spelled so is read.
        ensures found { IfSome result (λ l. IsLink bytes.now l) }
        ensures only { (l : Link) → IsLink bytes.now l → result ≡ Some l }
    {
        read(bytes)
    }

    /// What the bytes say, as a node of a directory, with its entries split at a name, or None where
    /// they are none. The entries are gone over once.
    pub fn split(bytes: &'a [u8], name: &[u8]) -> Option<(Self, Split<'a>)>
        ensures exact { option_map (λ r. r.0) result ≡ link_at bytes.now }
        ensures split { IfSome result (λ r. IsSplit r.0.items name.now r.1.front r.1.found r.1.back) }
        ensures found { IfSome result (λ r. r.1.found ≡ named_place r.0.items name.now) }
    {
        let header = header_of(bytes)?;
        let (list, split) = split_entries(header.count, header.used, &bytes[16..], name)?;
        let node = Entries {
            chained: header.chained,
            list,
            next: header.next,
        };
        Some((node, split))
    }

    /// The block of the node after this one, 0 where none comes.
    pub fn next(&self) -> u32
        ensures { result ≡ self.now.next }
    {
        self.next
    }

    /// Whether the node is one of a chain; else it stands alone.
    pub fn is_chained(&self) -> bool
        ensures { result ≡ self.now.chained }
    {
        self.chained
    }

    /// The entries of this node alone, at most 32.
    pub fn list(&self) -> EntryList<'a>
        ensures { result ≡ self.now.items }
    {
        EntryList {
            count: self.list.count,
            bytes: self.list.bytes,
        }
    }
}

/// A node that another comes after is full.
fn may_go_on(next: u32, count: u32) -> bool
    ensures { result ≡ spec.may_go_on next count }
{
    next == 0 || count == MOST_ENTRIES
}

/// What a header says of a node of a directory.
#[derive(Clone, Copy)]
struct Header {
    chained: bool,
    count: u32,
    used: u32,
    next: u32,
}

/// The header of a node of a directory, or None where the bytes do not begin with one.
#[tactic(auto, unfolding(crate::specs::Links::link_at))]
fn header_of(bytes: &[u8]) -> Option<Header>
    ensures read { option_and_then (λ h. option_map (link h.chained h.next) (entries_at h.count h.used (drop directory_header bytes.now))) result ≡ link_at bytes.now }
    ensures whole { IfSome result (λ _. directory_header ≤ length bytes.now) }
{
    if bytes.len() < 16 {
        return None;
    }
    let magic = u32_at(bytes, 0);
    let count = u32_at(bytes, 4);
    let used = u32_at(bytes, 8);
    let next = u32_at(bytes, 12);
    if magic == DIRECTORY_MAGIC {
        return Some(Header {
            chained: false,
            count,
            used,
            next: 0,
        });
    }
    if magic == CHAIN_MAGIC {
        if !may_go_on(next, count) {
            return None;
        }
        return Some(Header {
            chained: true,
            count,
            used,
            next,
        });
    }
    None
}

fn read(bytes: &[u8]) -> Option<Entries<'_>>
    ensures { result ≡ link_at bytes.now }
{
    let header = header_of(bytes)?;
    let list = entries_of(header.count, header.used, &bytes[16..])?;
    Some(Entries {
        chained: header.chained,
        list,
        next: header.next,
    })
}

/// What the header says of a node of a directory: how many entries it has, at most 32, and the block of
/// the node after it.
fn counted_header(bytes: &[u8]) -> Option<(u32, u32)>
    ensures exact { result ≡ spec.header_says bytes.now }
    ensures few { IfSome result (λ r. r.0 ≤ NODE_ENTRIES) }
{
    if bytes.len() < 16 {
        return None;
    }
    let count = u32_at(bytes, 4);
    if count > MOST_ENTRIES {
        return None;
    }
    let magic = u32_at(bytes, 0);
    if magic == DIRECTORY_MAGIC {
        return Some((count, 0));
    }
    if magic == CHAIN_MAGIC {
        return Some((count, u32_at(bytes, 12)));
    }
    None
}

/// How many entries the node of a directory has that begins with these bytes, at most 32, and the block
/// of the node after it, 0 where none comes. 16 bytes of the node tell it; None where no such node
/// begins so.
pub fn front_count(front: &[u8]) -> Option<(u32, u32)>
    ensures told { (bytes : List ℕ) (l : Link) → take (length bytes) front.now ≡ take (length front.now) bytes → min 16 (length bytes) ≤ length front.now
        → link_at bytes ≡ Some l → result ≡ Some (length l.items, l.next) }
    ensures few { IfSome result (λ r. r.0 ≤ NODE_ENTRIES) }
{
    counted_header(front)
}

/// Whether a node of a chain that has entries begins so.
fn begins_entries(front: &[u8]) -> bool
    ensures exact { result ≡ (nat_le 16 (length front.now) && (field front.now 0 == chain_magic && nat_lt 0 (field front.now 4))) }
    ensures long { result ≡ true → 16 ≤ length front.now }
{
    front.len() >= 16 && u32_at(front, 0) == CHAIN_MAGIC && u32_at(front, 4) > 0
}

/// The name of the first entry of the node of a chain that begins with these bytes; None where it has no
/// entry, or stands alone. 90 bytes of the node, or all, tell it.
pub fn first_name(front: &[u8]) -> Option<&[u8]>
    ensures { (bytes : List ℕ) (l : Link) → take (length bytes) front.now ≡ take (length front.now) bytes → min 90 (length bytes) ≤ length front.now
        → link_at bytes ≡ Some l → option_map (λ name. name.now) result ≡ spec.first_of l }
{
    if !begins_entries(front) {
        return None;
    }
    let (entry, _) = entry_of(&front[16..])?;
    Some(entry.name())
}

/// The bytes of a directory without entries: the only node of a chain.
pub const fn empty_directory() -> [u8; 16]
    ensures written { result ≡ chain_bytes 0 [] }
    ensures read { link_at result ≡ Some (link true 0 []) }
    ensures node { (block : ℕ) → MIN_BLOCK_BYTES ≤ block → IsNode block result }
{
    *b"UFNE\0\0\0\0\0\0\0\0\0\0\0\0"
}

/// The bytes of a node of a chain with at most 32 entries, before the node in the block `next`, or as
/// the last one where that is 0. A node that another comes after has 32.
pub fn chain_node(alloc: Global, list: &EntryList<'_>, next: u32) -> Result<Vec<u8>, AllocError>
    requires few { length list.now ≤ NODE_ENTRIES }
    requires full { (next ≡ 0) ⊎ (length list.now ≡ NODE_ENTRIES) }
    ensures written { IfOk result (λ bytes. bytes.items ≡ chain_bytes next list.now) }
    ensures read { IfOk result (λ bytes. link_at bytes.items ≡ Some (link true next list.now)) }
    ensures node { IfOk result (λ bytes. (block : ℕ) → MIN_BLOCK_BYTES ≤ block → IsNode block bytes.items) }
{
    let spelled = list.bytes;
    let mut out = Vec::with_capacity(alloc, 16 + spelled.len())?;
    out.extend_from_slice(b"UFNE")?;
    push_u32(&mut out, list.count)?;
    push_u32(&mut out, spelled.len() as u32)?;
    push_u32(&mut out, next)?;
    out.extend_from_slice(spelled)?;
    Ok(out)
}
