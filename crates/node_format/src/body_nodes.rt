//! A part of a file's body, read from the bytes of its node, and the bytes of a new one.
ghost use Rattle.std.specs.Prelude.{◌≡◌, ℕ, List, ◌+◌, ◌*◌, ◌^◌, ◌<◌, ◌≤◌, ◌++◌, ◌↔◌, IsTrue, length, take, drop, replicate, codes, Some, IfSome, OnOk, IfOk};
ghost use Rattle.byteorder.specs.Endian.{little_bytes};
ghost use Rattle.node_format.specs.Headers.{field, body_header, IsNode};
ghost use Rattle.node_format.specs.BodyNodes.{IsBodyNode, HasSlot, IsSlot, IsBodySpelling};
ghost use Rattle.node_format.specs.declared.headers.TheConstants.{SLOTS};

use crate::headers::{BODY_HEADER, SLOTS};
use fields::{push_u32, u32_at};
use std::alloc::{AllocError, Global};
use std::marker::Model;

/// The first bytes of a body node.
const MAGIC: [u8; 4] = *b"UFNB";

/// The bytes before the data.
const HEADER: usize = BODY_HEADER as usize;

/// A node of a file's body: a part of the file's bytes, with the blocks of nodes before it, lent from
/// the bytes of the node.
#[derive(Drop)]
pub struct BodyNode<'a> {
    node: &'a [u8],
}

impl<'a> Model for BodyNode<'a> {
    ghost use Rattle.std.specs.Prelude.{List, ℕ};
    ghost use Rattle.node_format.specs.BodyNodes.{IsBodyNode};

    ghost Value = { List ℕ };

    ghost view = { λ b. b.node.now };

    ghost invariant = { λ b. IsBodyNode b.node.now };
}

impl<'a> BodyNode<'a> {
    /// The body node of exactly these bytes, or None where they are not those of one.
    pub fn of(bytes: &'a [u8]) -> Option<Self>
        ensures found { IfSome result (λ node. (node ≡ bytes.now) × IsBodyNode bytes.now) }
        ensures only { IsBodyNode bytes.now → result ≡ Some bytes.now }
    {
        if bytes.len() <= HEADER {
            return None;
        }
        if u32_at(bytes, 0) != u32::from_le_bytes(MAGIC) {
            return None;
        }
        if u32_at(bytes, 8) as usize != bytes.len() - HEADER {
            return None;
        }
        Some(BodyNode { node: bytes })
    }

    /// Its place among the nodes of its file, from 0.
    pub fn index(&self) -> u32
        ensures { result ≡ field self.now 4 }
    {
        u32_at(self.node, 4)
    }

    /// How many data bytes it has, at least 1.
    pub fn used(&self) -> u32
        ensures used { result ≡ field self.now 8 }
        ensures some { 1 ≤ result }
        ensures size { length self.now ≡ body_header + result }
    {
        u32_at(self.node, 8)
    }

    /// The block that a slot names: that of the node 2 to the `slot` before this one. None where 2 to
    /// the `slot` does not divide the index, for the first node, and past the last slot.
    pub fn pointer(&self, slot: usize) -> Option<u32>
        ensures found { IfSome result (λ block. (block ≡ field self.now (16 + 4 * slot)) × HasSlot (field self.now 4) slot) }
        ensures only { HasSlot (field self.now 4) slot → result ≡ Some (field self.now (16 + 4 * slot)) }
    {
        if has_slot(self.index(), slot) {
            Some(u32_at(self.node, 16 + 4 * slot))
        } else {
            None
        }
    }

    /// The data bytes, as many as `used`.
    pub fn bytes(&self) -> &'a [u8]
        ensures { result.now ≡ drop body_header self.now }
    {
        &self.node[HEADER..]
    }
}

/// Whether the node of an index has a pointer at a slot.
fn has_slot(index: u32, slot: usize) -> bool
    ensures has { IsTrue result ↔ HasSlot index slot }
    ensures few { IsTrue result → slot < SLOTS }
{
    if index == 0 {
        return false;
    }
    if slot >= SLOTS {
        return false;
    }
    index % (1 << slot) == 0
}

/// The first 16 bytes of the body node of an index with so many data bytes, with memory for all of it.
fn header(alloc: Global, index: u32, used: u32) -> Result<Vec<u8>, AllocError>
    ensures spelled { IfOk result (λ v. v.items ≡ codes "UFNB" ++ (little_bytes 4 index ++ (little_bytes 4 used ++ little_bytes 4 0))) }
{
    let mut out = Vec::with_capacity(alloc, HEADER + used as usize)?;
    out.extend_from_slice(&MAGIC)?;
    push_u32(&mut out, index)?;
    push_u32(&mut out, used)?;
    push_u32(&mut out, 0)?;
    Ok(out)
}

/// The number in a slot of the node of an index: its pointer, or 0 where the index has no such slot.
fn number_in_slot(index: u32, pointers: &[u32], slot: usize) -> u32
    ensures { IsSlot index pointers.now slot result }
{
    if has_slot(index, slot) {
        pointers.get(slot).copied().unwrap_or(0)
    } else {
        0
    }
}

/// Adds the slots of the node of an index, with these pointers where it has the slot and 0 elsewhere.
fn push_slots(out: &mut Vec<u8>, index: u32, pointers: &[u32]) -> Result<(), AllocError>
    ensures old { OnOk result ((slot : ℕ) → slot + 4 ≤ length out.old.items → field out.new.items slot ≡ field out.old.items slot) }
    ensures slots { OnOk result ((x : ℕ) → x < SLOTS → IsSlot index pointers.now x (field out.new.items (length out.old.items + 4 * x))) }
    ensures size { OnOk result (length out.new.items ≡ length out.old.items + 64) }
{
    for slot in 0..SLOTS {
        push_u32(out, number_in_slot(index, pointers, slot))?;
    }
    Ok(())
}

/// The bytes of the body node of an index, with the blocks that its first slots name, at most
/// 16, and with its data, at least one byte. Slots that the index does not have are 0, whatever
/// `pointers` has for them.
pub fn body_node(
    alloc: Global,
    index: u32,
    pointers: &[u32],
    bytes: &[u8],
) -> Result<Vec<u8>, AllocError>
    requires slots { length pointers.now ≤ SLOTS }
    requires some { 1 ≤ length bytes.now }
    requires capacity { body_header + length bytes.now < 2 ^ 32 }
    ensures spelled { IfOk result (λ node. IsBodySpelling node.items index pointers.now bytes.now) }
    ensures node { IfOk result (λ node. (block : ℕ) → body_header + length bytes.now ≤ block → IsNode block node.items) }
{
    let mut out = header(alloc, index, bytes.len() as u32)?;
    push_slots(&mut out, index, pointers)?;
    out.extend_from_slice(bytes)?;
    Ok(out)
}

/// The bytes of the body node of an index with room for so many data bytes, at least one, which are
/// zeros: with any data in that room they are the bytes of the node that holds it. Its slots are as in
/// `body_node`.
pub fn body_room(
    alloc: Global,
    index: u32,
    pointers: &[u32],
    used: u32,
) -> Result<Vec<u8>, AllocError>
    requires slots { length pointers.now ≤ SLOTS }
    requires some { 1 ≤ used }
    requires capacity { body_header + used < 2 ^ 32 }
    ensures size { IfOk result (λ room. length room.items ≡ body_header + used) }
    ensures zeros { IfOk result (λ room. drop body_header room.items ≡ replicate used 0) }
    ensures spelled { IfOk result (λ room. (data_bytes : List ℕ) → length data_bytes ≡ used → IsBodySpelling (take body_header room.items ++ data_bytes) index pointers.now data_bytes) }
{
    let mut out = header(alloc, index, used)?;
    push_slots(&mut out, index, pointers)?;
    out.resize(HEADER + used as usize, 0)?;
    Ok(out)
}
