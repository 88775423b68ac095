//! Which versions are copied.
ghost use Rattle.std.specs.Prelude.{◌≡◌, ◌+◌, ◌-◌, ◌++◌, ◌<◌, ◌≤◌, ◌⊎◌, ◌↔◌, ℕ, IfOk, IsTrue, length, min, max, take, drop};

use std::alloc::{AllocError, Global};

/// Whether the version at a place is copied of `count`, of which the one at `cursor` is present, where
/// `limit` are kept: the newest are; where the present one is older than these it is, and the newest for
/// which there is room beside it.
pub fn is_kept(place: usize, cursor: usize, count: usize, limit: usize) -> bool
    ensures { let first = min cursor (count - limit) in IsTrue result ↔ ((place ≡ first) ⊎ (max (first + 1) (count - (limit - 1)) ≤ place)) }
{
    let first = first_kept(cursor, count, limit);
    place == first || (place > first && place >= newest_but_one(count, limit))
}

/// The place of the oldest version that is copied.
pub(crate) fn first_kept(cursor: usize, count: usize, limit: usize) -> usize
    ensures { result ≡ min cursor (count - limit) }
{
    cursor.min(count.saturating_sub(limit))
}

/// The place of the first of the newest, of which there is one fewer than are kept.
fn newest_but_one(count: usize, limit: usize) -> usize
    ensures { result ≡ count - (limit - 1) }
{
    count.saturating_sub(limit.saturating_sub(1))
}

/// The serials of the versions that are copied, of which the oldest is at a place.
pub(crate) fn choose_serials(
    alloc: Global,
    serials: &[u64],
    first: usize,
    limit: usize,
) -> Result<Vec<u64>, AllocError>
    requires { first < length serials.now }
    ensures { IfOk result (λ kept. kept.items ≡ take 1 (drop first serials.now) ++ drop (max (first + 1) (length serials.now - (limit - 1))) serials.now) }
{
    let mut kept = Vec::new(alloc);
    kept.push(serials[first])?;
    let others = (first + 1).max(newest_but_one(serials.len(), limit));
    kept.extend_from_slice(&serials[others..])?;
    Ok(kept)
}
