//! A list of entries of its own, and a list with one entry changed.
ghost use Rattle.std.specs.Prelude.{◌≡◌, ◌+◌, ◌^◌, ◌<◌, ◌≤◌, [], ◌++◌, length, true, Some, None, OnOk, OnErr, IfOk};
ghost use Rattle.fs_types.specs.declared.limits.TheConstants.{MAX_ENTRIES};
ghost use Rattle.fs_types.specs.Names.{is_name};
ghost use Rattle.node_format.specs.Items.{is_place, are_ascending, named_place};
ghost use Rattle.node_format.specs.Directories.{item_bytes, kind_of, head_of, size_of};
ghost use Rattle.node_format.specs.Edits.{IsEdited};

use crate::entry_list::EntryList;
use crate::place::Place;
use crate::split::Split;
use fields::push_u32;
use std::alloc::{AllocError, Global};
use std::marker::Model;

/// Entries of a directory, at most 1,024, in byte order of their names, with the bytes that spell
/// them.
#[derive(Drop)]
pub struct Spelled {
    count: u32,
    bytes: Vec<u8>,
}

impl Model for Spelled {
    ghost use Rattle.std.specs.Prelude.{List};
    ghost use Rattle.node_format.specs.Items.{Item};
    ghost use Rattle.node_format.specs.Directories.{items_at, AreSpelled};

    ghost Value = { List Item };

    ghost view = { λ s. items_at s.count s.bytes.items };

    ghost invariant = { λ s. AreSpelled s.count s.bytes.items (items_at s.count s.bytes.items) };
}

impl Spelled {
    /// No entries.
    pub fn new(alloc: Global) -> Self
        ensures { result ≡ [] }
    {
        Spelled {
            count: 0,
            bytes: Vec::new(alloc),
        }
    }

    /// The entries, lent.
    pub fn list(&self) -> EntryList<'_>
        ensures { result ≡ self.now }
    {
        EntryList {
            count: self.count,
            bytes: &self.bytes,
        }
    }

    /// Puts entries after these, whose names all come before theirs. Where memory is short these stay.
    pub fn extend(&mut self, list: &EntryList<'_>) -> Result<(), AllocError>
        requires few { length self.old + length list.now ≤ MAX_ENTRIES }
        requires ordered { are_ascending (self.old ++ list.now) ≡ true }
        ensures added { OnOk result (self.new ≡ self.old ++ list.now) }
        ensures kept { OnErr result (self.new ≡ self.old) }
    {
        self.bytes.extend_from_slice(list.bytes)?;
        self.count += list.count;
        Ok(())
    }
}

impl<'a> EntryList<'a> {
    /// The entries with a name put: added in its place in the order, or, where it is there already,
    /// leading to another place.
    pub fn with_entry(
        &self,
        alloc: Global,
        name: &[u8],
        place: Place,
    ) -> Result<Spelled, AllocError>
        requires name { is_name name.now ≡ true }
        requires place { is_place place ≡ true }
        requires capacity { named_place self.now name.now ≡ None → length self.now < MAX_ENTRIES }
        ensures { IfOk result (λ new. IsEdited self.now name.now (Some place) new) }
    {
        let Split {
            front,
            found: _,
            back,
        } = self.split(name);
        let entry = entry_bytes(alloc, name, place)?;
        let count = front.count + (1 + back.count);
        let bytes = joined(alloc, front.bytes, &entry, back.bytes)?;
        Ok(Spelled { count, bytes })
    }

    /// The entries without a name.
    pub fn without_entry(&self, alloc: Global, name: &[u8]) -> Result<Spelled, AllocError>
        ensures { IfOk result (λ new. IsEdited self.now name.now None new) }
    {
        let Split {
            front,
            found: _,
            back,
        } = self.split(name);
        let count = front.count + back.count;
        let bytes = joined(alloc, front.bytes, &[], back.bytes)?;
        Ok(Spelled { count, bytes })
    }
}

/// The bytes of one entry.
fn entry_bytes(alloc: Global, name: &[u8], place: Place) -> Result<Vec<u8>, AllocError>
    requires { length name.now < 256 }
    ensures { IfOk result (λ v. v.items ≡ item_bytes (record { name = name.now; place = place })) }
{
    let (kind, head, size) = fields_of(place);
    let mut out = Vec::with_capacity(alloc, 10 + name.len())?;
    out.extend_from_slice(&[kind, name.len() as u8])?;
    out.extend_from_slice(name)?;
    push_u32(&mut out, head)?;
    push_u32(&mut out, size)?;
    Ok(out)
}

fn fields_of(place: Place) -> (u8, u32, u32)
    ensures { result ≡ (kind_of place, head_of place, size_of place) }
{
    match place {
        Place::File { head, length } => (1, head, length),
        Place::Dir { block } => (2, block, 0),
    }
}

/// Bytes in three parts.
fn joined(alloc: Global, front: &[u8], middle: &[u8], back: &[u8]) -> Result<Vec<u8>, AllocError>
    requires { length front.now + (length middle.now + length back.now) < 2 ^ 32 }
    ensures { IfOk result (λ v. v.items ≡ front.now ++ (middle.now ++ back.now)) }
{
    let mut out = Vec::with_capacity(alloc, front.len() + (middle.len() + back.len()))?;
    out.extend_from_slice(front)?;
    out.extend_from_slice(middle)?;
    out.extend_from_slice(back)?;
    Ok(out)
}
