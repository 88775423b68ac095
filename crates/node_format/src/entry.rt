//! An entry of a directory, read from its bytes.
ghost use Rattle.std.specs.Prelude.{◌≡◌, true, Some, IsSome, IfSome};
ghost use Rattle.std.specs.Option.{option_map};
ghost use Rattle.fs_types.specs.Names.{is_name};
ghost use Rattle.node_format.specs.Directories.{name_at, place_at, item_at};

use crate::place::Place;
use fields::{read_u8, read_u32};
use fs_types::{MAX_FILE_BYTES, MAX_NAME_BYTES, is_lawful_name};
use std::marker::Model;

/// An entry of a directory: a name of 1 to 64 bytes, and what it names.
#[derive(Drop)]
pub struct Entry<'a> {
    pub(crate) name: &'a [u8],
    pub(crate) place: Place,
}

impl<'a> Model for Entry<'a> {
    ghost use Rattle.std.specs.Prelude.{◌≡◌, true};
    ghost use Rattle.fs_types.specs.Names.{is_name};
    ghost use Rattle.node_format.specs.Items.{Item};

    ghost Value = { Item };

    ghost view = { λ e. record { name = e.name.now; place = e.place } };

    ghost invariant = { λ e. is_name e.name.now ≡ true };
}

impl<'a> Entry<'a> {
    /// The name, 1 to 64 bytes.
    pub fn name(&self) -> &'a [u8]
        ensures name { result.now ≡ self.now.name }
        ensures lawful { is_name self.now.name ≡ true }
    {
        self.name
    }

    /// What it names.
    pub fn place(&self) -> Place
        ensures { result ≡ self.now.place }
    {
        self.place
    }
}

fn name_of(size: u8, bytes: &[u8]) -> Option<(&[u8], &[u8])>
    ensures name { option_map (λ x. (x.0.now, x.1.now)) result ≡ name_at size bytes.now }
    ensures lawful { IfSome result (λ x. is_name x.0.now ≡ true) }
{
    let size = size as usize;
    if bytes.len() < size {
        return None;
    }
    let (name, rest) = bytes.split_at(size);
    if name.len() > MAX_NAME_BYTES {
        return None;
    }
    if is_lawful_name(name) {
        Some((name, rest))
    } else {
        None
    }
}

/// The name of so many bytes that is known to be lawful, and the bytes after it.
fn known_name(size: u8, bytes: &[u8]) -> (&[u8], &[u8])
    requires { IsSome (name_at size bytes.now) }
    ensures name { Some (result.0.now, result.1.now) ≡ name_at size bytes.now }
    ensures lawful { is_name result.0.now ≡ true }
{
    bytes.split_at(size as usize)
}

fn place_of(kind: u8, head: u32, length: u32) -> Option<Place>
    ensures { result ≡ place_at kind head length }
{
    match kind {
        1 if length <= MAX_FILE_BYTES => Some(Place::File { head, length }),
        2 if length == 0 => Some(Place::Dir { block: head }),
        _ => None,
    }
}

#[tactic(auto, unfolding(crate::specs::Directories::item_at))]
pub(crate) fn entry_of(bytes: &[u8]) -> Option<(Entry<'_>, &[u8])>
    ensures { option_map (λ x. (x.0, x.1.now)) result ≡ item_at bytes.now }
{
    let (kind, rest) = read_u8(bytes)?;
    let (size, rest) = read_u8(rest)?;
    let (name, rest) = name_of(size, rest)?;
    let (head, rest) = read_u32(rest)?;
    let (length, rest) = read_u32(rest)?;
    let place = place_of(kind, head, length)?;
    Some((Entry { name, place }, rest))
}

/// The entry that the bytes are known to begin with, and the bytes after it: its name is not checked
/// again.
#[tactic(auto, unfolding(crate::specs::Directories::item_at))]
pub(crate) fn known_entry(bytes: &[u8]) -> Option<(Entry<'_>, &[u8])>
    requires { IsSome (item_at bytes.now) }
    ensures { option_map (λ x. (x.0, x.1.now)) result ≡ item_at bytes.now }
{
    let (kind, rest) = read_u8(bytes)?;
    let (size, rest) = read_u8(rest)?;
    let (name, rest) = known_name(size, rest);
    let (head, rest) = read_u32(rest)?;
    let (length, rest) = read_u32(rest)?;
    let place = place_of(kind, head, length)?;
    Some((Entry { name, place }, rest))
}

/// The bytes after the entry that the bytes are known to begin with: a step over it by its length.
pub(crate) fn after_known(bytes: &[u8]) -> &[u8]
    requires { IsSome (item_at bytes.now) }
    ensures { option_map (λ x. x.1) (item_at bytes.now) ≡ Some result.now }
{
    let size = bytes[1] as usize;
    &bytes[10 + size..]
}
