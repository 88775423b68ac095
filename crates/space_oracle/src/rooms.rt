//! What is known of the blocks of a flash.
use fs_types::{Answer, Call, Event, Reply};

/// What is known of the blocks of a flash by what was told of them, since which nothing was written.
#[derive(Drop)]
pub struct Room {
    /// How many blocks are free.
    free: Option<u64>,
    /// How many are used that are not bad.
    used: Option<u64>,
    /// How many more were free once each version before the present one is forgotten, with those before
    /// it, when that was told.
    frees: Option<Vec<u64>>,
    /// How many versions were forgotten since, and how many blocks that freed.
    forgotten: u64,
    freed: u64,
}

impl Room {
    /// Nothing is known.
    pub fn unknown() -> Room {
        Room {
            free: None,
            used: None,
            frees: None,
            forgotten: 0,
            freed: 0,
        }
    }

    /// Takes what an event was answered. Whether it may be, as far as it tells how many blocks are free.
    pub fn take(&mut self, event: &Event, answer: &Answer) -> bool {
        match (event, answer) {
            (
                Event::Call(_),
                Answer::Done(
                    Reply::Df {
                        blocks,
                        bad,
                        free,
                        ..
                    },
                ),
            ) => self.take_df(*blocks, *bad, *free),
            (Event::Call(Call::Forget { count }), Answer::Done(_)) => {
                self.forget(*count);
                true
            }
            _ => {
                if !is_looked(event) {
                    *self = Room::unknown();
                }
                true
            }
        }
    }

    /// Takes what `df` tells. Whether it may.
    pub fn take_df(&mut self, blocks: u64, bad: u64, free: u64) -> bool {
        let used = blocks.saturating_sub(bad).saturating_sub(free);
        let is_same = self.free.unwrap_or(free) == free && self.used.unwrap_or(used) == used;
        self.free = Some(free);
        self.used = Some(used);
        is_same
    }

    /// Takes what forgetting each version before the present one frees. Whether it may.
    pub fn take_frees(&mut self, frees: Vec<u64>) -> bool {
        let is_same = self.may_free(&frees);
        self.frees = Some(frees);
        self.forgotten = 0;
        self.freed = 0;
        is_same
    }

    fn may_free(&self, frees: &[u64]) -> bool {
        self.frees.is_none() || self.frees_no_other(frees)
    }

    /// Whether forgetting is known to free these, and no version more can be forgotten.
    fn frees_no_other(&self, frees: &[u64]) -> bool {
        let mut count = 0u64;
        for freed in frees {
            count = count.saturating_add(1);
            if self.freed_by(count) != Some(*freed) {
                return false;
            }
        }
        self.freed_by(count.saturating_add(1)).is_none()
    }

    /// Whether so many blocks may be kept alone, each by one that keeps it: where all that is kept is kept
    /// by one, these are the used ones.
    pub fn may_keep(&self, alone: u64, is_only_one: bool) -> bool {
        match self.used {
            Some(used) if is_only_one => alone == used,
            Some(used) => alone <= used,
            None => true,
        }
    }

    /// Whether these may be the fewest versions to forget for so many blocks to be free.
    pub fn may_be_least(&self, blocks: u64, count: u64) -> bool {
        self.may_be_enough(blocks, count)
            && (count == 0 || self.may_lack(blocks, count.saturating_sub(1)))
    }

    /// Whether so many blocks may be free once so many versions are forgotten.
    fn may_be_enough(&self, blocks: u64, count: u64) -> bool {
        match self.free_after(count) {
            Some(free) => blocks <= free,
            None => true,
        }
    }

    /// Whether fewer blocks than these may be free once so many versions are forgotten.
    pub fn may_lack(&self, blocks: u64, count: u64) -> bool {
        match self.free_after(count) {
            Some(free) => free < blocks,
            None => true,
        }
    }

    /// How many blocks are free once so many versions are forgotten, where that is known.
    fn free_after(&self, count: u64) -> Option<u64> {
        Some(self.free?.saturating_add(self.freed_by(count)?))
    }

    /// How many more blocks are free once so many versions are forgotten, where that is known.
    fn freed_by(&self, count: u64) -> Option<u64> {
        if count == 0 {
            return Some(0);
        }
        let last = self.forgotten.saturating_add(count).saturating_sub(1);
        let place = usize::try_from(last).ok()?;
        let freed = self.frees.as_ref()?.get(place).copied()?;
        Some(freed.saturating_sub(self.freed))
    }

    /// So many versions are forgotten.
    pub fn forget(&mut self, count: u64) {
        match self.freed_by(count) {
            Some(freed) => {
                self.free = self.free.map(|free| free.saturating_add(freed));
                self.used = self.used.map(|used| used.saturating_sub(freed));
                self.forgotten = self.forgotten.saturating_add(count);
                self.freed = self.freed.saturating_add(freed);
            }
            None => *self = Room::unknown(),
        }
    }
}

/// Whether nothing is written by an event: a call that reads, or a step of reclaiming.
fn is_looked(event: &Event) -> bool {
    matches!(
        event,
        Event::ReclaimStep(_)
            | Event::Call(
                Call::Df
                    | Call::Log
                    | Call::Stat { .. }
                    | Call::List { .. }
                    | Call::Entries { .. }
                    | Call::ReadAt { .. }
                    | Call::Pread { .. }
            )
    )
}
