//! Entries of a directory split at a name: those of a node are checked and split in one pass.
ghost use Rattle.std.specs.Prelude.{◌≡◌, ◌≤◌, [], length, None, IfSome};
ghost use Rattle.std.specs.Option.{is_some, option_map};
ghost use Rattle.fs_types.specs.declared.limits.TheConstants.{NODE_ENTRIES};
ghost use Rattle.node_format.specs.Directories.{are_filled, items_at, entries_at};
ghost use Rattle.node_format.specs.Edits.{IsSplit};

use crate::entry::entry_of;
use crate::entry_list::{EntryList, filled_list, front_of, is_filled};
use crate::headers::MOST_ENTRIES;
use crate::place::Place;
use std::cmp::Ordering;

/// The entries before a name, what the name leads to, and the entries after it.
#[derive(Drop)]
pub struct Split<'a> {
    /// Those before the name.
    pub front: EntryList<'a>,
    /// What the name leads to, if it has an entry.
    pub found: Option<Place>,
    /// Those after the name.
    pub back: EntryList<'a>,
}

/// The entries of a node whose header says so many entries and used bytes, and the same split at a
/// name.
#[tactic(auto, unfolding(crate::specs::Directories::entries_at))]
pub(crate) fn split_entries<'a>(
    count: u32,
    used: u32,
    bytes: &'a [u8],
    name: &[u8],
) -> Option<(EntryList<'a>, Split<'a>)>
    ensures read { option_map (λ r. r.0) result ≡ entries_at count used bytes.now }
    ensures split { IfSome result (λ r. IsSplit r.0 name.now r.1.front r.1.found r.1.back) }
{
    if count > MOST_ENTRIES {
        return None;
    }
    if used as usize != bytes.len() {
        return None;
    }
    let split = split_filled(count, bytes, name)?;
    Some((EntryList { count, bytes }, split))
}

/// The split at a name that no entry has.
fn split_between<'a>(front: EntryList<'a>, back: EntryList<'a>) -> Split<'a>
    ensures front { result.front ≡ front.entry }
    ensures found { result.found ≡ None }
    ensures back { result.back ≡ back.entry }
{
    Split {
        front,
        found: None,
        back,
    }
}

/// So many entries split at a name, or None where they do not fill the bytes in byte order.
#[tactic(auto, unfolding(crate::specs::Directories::are_filled))]
fn split_filled<'a>(count: u32, bytes: &'a [u8], name: &[u8]) -> Option<Split<'a>>
    requires { count ≤ NODE_ENTRIES }
    ensures filled { is_some result ≡ are_filled count [] bytes.now }
    ensures split { IfSome result (λ s. IsSplit (items_at count bytes.now) name.now s.front s.found s.back) }
{
    let mut before: &[u8] = &[];
    let mut rest = bytes;
    for done in 0..count {
        let (entry, after) = entry_of(rest)?;
        let first = entry.name;
        if before.cmp(first).is_ge() {
            return None;
        }
        match first.cmp(name) {
            Ordering::Less => {
                before = first;
                rest = after;
            }
            Ordering::Equal => {
                let back = filled_list(count - done - 1, first, after)?;
                return Some(Split {
                    front: front_of(done, bytes, rest),
                    found: Some(entry.place),
                    back,
                });
            }
            Ordering::Greater => {
                if !is_filled(count - done - 1, first, after) {
                    return None;
                }
                let back = EntryList {
                    count: count - done,
                    bytes: rest,
                };
                return Some(split_between(front_of(done, bytes, rest), back));
            }
        }
    }
    let back = filled_list(0, before, rest)?;
    Some(split_between(EntryList { count, bytes }, back))
}
