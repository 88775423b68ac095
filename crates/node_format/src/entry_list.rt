//! The entries of a directory, as a list that is lent from bytes that spell it.
ghost use Rattle.std.specs.Prelude.{◌≡◌, ◌≤◌, ◌+◌, ◌==◌, [], ◌-◌, length, take, drop, IfSome};
ghost use Rattle.std.specs.Option.{is_some};
ghost use Rattle.std.specs.Iterator.{YieldsFirst, item_count};
ghost use Rattle.fs_types.specs.declared.limits.TheConstants.{MAX_ENTRIES, NODE_ENTRIES};
ghost use Rattle.node_format.specs.Items.{named_place};
ghost use Rattle.node_format.specs.Directories.{are_filled, items_at, entries_at};
ghost use Rattle.node_format.specs.Edits.{IsSplit, AreFront};
ghost use Rattle.node_format.specs.Links.{skipped};

use crate::entry::{Entry, after_known, entry_of, known_entry};
use crate::headers::MOST_ENTRIES;
use crate::place::Place;
use crate::split::Split;
use std::cmp::Ordering;
use std::marker::Model;

/// Whether so many entries fill the bytes, in byte order and all after a name.
#[tactic(auto, unfolding(crate::specs::Directories::are_filled))]
pub(crate) fn is_filled(count: u32, first: &[u8], bytes: &[u8]) -> bool
    ensures { result ≡ are_filled count first.now bytes.now }
{
    let mut before = first;
    let mut rest = bytes;
    for _ in 0..count {
        let Some((entry, after)) = entry_of(rest) else {
            return false;
        };
        let name = entry.name;
        if before.cmp(name).is_ge() {
            return false;
        }
        before = name;
        rest = after;
    }
    rest.is_empty()
}

/// So many entries, or None where they do not fill the bytes, in byte order and all after a name.
pub(crate) fn filled_list<'a>(count: u32, first: &[u8], bytes: &'a [u8]) -> Option<EntryList<'a>>
    requires { count ≤ NODE_ENTRIES }
    ensures filled { is_some result ≡ are_filled count first.now bytes.now }
    ensures list { IfSome result (λ list. list ≡ items_at count bytes.now) }
{
    if is_filled(count, first, bytes) {
        Some(EntryList { count, bytes })
    } else {
        None
    }
}

/// Entries of a directory, at most 1,024, in byte order of their names, lent from bytes that spell
/// them.
///
/// It is an iterator of the entries that are left.
#[derive(Drop)]
pub struct EntryList<'a> {
    pub(crate) count: u32,
    pub(crate) bytes: &'a [u8],
}

impl<'a> Model for EntryList<'a> {
    ghost use Rattle.std.specs.Prelude.{List};
    ghost use Rattle.node_format.specs.Items.{Item};
    ghost use Rattle.node_format.specs.Directories.{items_at, AreSpelled};

    ghost Value = { List Item };

    ghost view = { λ e. items_at e.count e.bytes.now };

    ghost invariant = { λ e. AreSpelled e.count e.bytes.now (items_at e.count e.bytes.now) };
}

/// The first entries, so many, in the bytes before the others.
pub(crate) fn front_of<'a>(count: u32, bytes: &'a [u8], others: &[u8]) -> EntryList<'a>
    requires within { length others.now ≤ length bytes.now }
    requires spelled { AreFront count bytes.now others.now }
    ensures { result ≡ items_at count (take (length bytes.now - length others.now) bytes.now) }
{
    EntryList {
        count,
        bytes: &bytes[..bytes.len() - others.len()],
    }
}

impl<'a> Iterator for EntryList<'a> {
    type Item = Entry<'a>;

    ghost next_gives = { YieldsFirst (λ s. s) };

    ghost remaining = { item_count (λ s. s) };

    fn next(&mut self) -> Option<Entry<'a>> {
        if self.count == 0 {
            return None;
        }
        let Some((entry, rest)) = known_entry(self.bytes) else {
            return None;
        };
        self.count -= 1;
        self.bytes = rest;
        Some(entry)
    }
}

impl<'a> EntryList<'a> {
    /// What a name leads to.
    pub fn find(&self, name: &[u8]) -> Option<Place>
        ensures { result ≡ named_place self.now name.now }
    {
        self.split(name).found
    }

    /// The entries before a name, what the name leads to, and the entries after it.
    pub(crate) fn split(&self, name: &[u8]) -> Split<'a>
        ensures split { IsSplit self.now name.now result.front result.found result.back }
        ensures few { length self.now ≤ MAX_ENTRIES }
    {
        let count = self.count;
        let bytes = self.bytes;
        let mut rest = bytes;
        for done in 0..count {
            let Some((entry, after)) = known_entry(rest) else {
                unreachable!()
            };
            match entry.name.cmp(name) {
                Ordering::Less => rest = after,
                Ordering::Equal => {
                    return Split {
                        front: front_of(done, bytes, rest),
                        found: Some(entry.place),
                        back: EntryList {
                            count: count - done - 1,
                            bytes: after,
                        },
                    };
                }
                Ordering::Greater => {
                    return Split {
                        front: front_of(done, bytes, rest),
                        found: None,
                        back: EntryList {
                            count: count - done,
                            bytes: rest,
                        },
                    };
                }
            }
        }
        Split {
            front: EntryList { count, bytes },
            found: None,
            back: EntryList {
                count: 0,
                bytes: rest,
            },
        }
    }

    /// `count` of the entries, from the one at `from` on.
    pub fn part(&self, from: u32, count: u32) -> EntryList<'a>
        requires within { from + count ≤ length self.now }
        ensures { result ≡ take count (drop from self.now) }
    {
        let start = skip_entries(from, self.bytes);
        let others = skip_entries(count, start);
        front_of(count, start, others)
    }

    /// How many entries are left, at most 1,024.
    pub fn len(&self) -> usize
        ensures { result ≡ length self.now }
    {
        self.count as usize
    }

    /// Whether no entry is left.
    pub fn is_empty(&self) -> bool
        ensures { result ≡ (length self.now == 0) }
    {
        self.count == 0
    }
}

/// What is left of the bytes after so many entries that they are known to begin with.
#[tactic(auto, unfolding(crate::specs::Links::skipped))]
fn skip_entries(count: u32, bytes: &[u8]) -> &[u8]
    requires { length (items_at count bytes.now) ≡ count }
    ensures { result.now ≡ skipped count bytes.now }
{
    let mut rest = bytes;
    for _ in 0..count {
        rest = after_known(rest);
    }
    rest
}

/// The entries of a node whose header says so many entries and used bytes.
#[tactic(auto, unfolding(crate::specs::Directories::entries_at))]
pub(crate) fn entries_of(count: u32, used: u32, bytes: &[u8]) -> Option<EntryList<'_>>
    ensures { result ≡ entries_at count used bytes.now }
{
    if count > MOST_ENTRIES {
        return None;
    }
    if used as usize != bytes.len() {
        return None;
    }
    filled_list(count, &[], bytes)
}
