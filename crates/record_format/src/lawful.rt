//! Whether a record is one that a payload may say.
ghost use Rattle.std.specs.Prelude.{◌≡◌, [], nat_lt};
ghost use Rattle.std.specs.List.{list_all};
ghost use Rattle.record_format.specs.Payloads as payload;

use crate::formats::{is_format, most_versions};
use crate::record::{Checkpoint, Record};
use fs_types::{ANCHORS, MAX_BAD_BLOCKS, MAX_CHECKPOINTS, MIN_VERSIONS, Version};

impl Record {
    /// Whether a payload may say this record: its format is one that is read, the counts are within their limits, and versions,
    /// checkpoints and bad blocks are in order.
    pub fn is_lawful(&self) -> bool
        ensures { result ≡ payload.is_record self.now }
    {
        self.has_counts() && self.has_versions() && self.has_checkpoints() && self.has_bad_blocks()
    }

    fn has_limit(&self) -> bool
        ensures { result ≡ payload.has_limit self.now }
    {
        is_format(self.format)
            && MIN_VERSIONS <= self.limit
            && self.limit <= most_versions(self.format)
    }

    fn has_counts(&self) -> bool
        ensures { result ≡ payload.has_counts self.now }
    {
        let versions = self.versions.as_slice().len();
        self.has_limit()
            && versions <= self.limit as usize
            && (self.cursor as usize) < versions
            && self.checkpoints.as_slice().len() <= MAX_CHECKPOINTS
            && self.bad.as_slice().len() <= MAX_BAD_BLOCKS
            && ANCHORS <= self.last
            && self.last < self.geometry.blocks
    }

    fn has_versions(&self) -> bool
        ensures { result ≡ payload.has_versions self.now }
    {
        let versions = self.versions.as_slice();
        let next = self.next;
        serials_ascend(versions) && serials_are_below(versions, next)
    }

    fn has_checkpoints(&self) -> bool
        ensures { result ≡ payload.has_checkpoints self.now }
    {
        names_ascend(self.checkpoints.as_slice())
    }

    fn has_bad_blocks(&self) -> bool
        ensures { result ≡ payload.has_bad_blocks self.now }
    {
        let bad = self.bad.as_slice();
        let blocks = self.geometry.blocks;
        numbers_ascend(bad) && numbers_are_below(bad, blocks)
    }
}

fn serials_ascend(versions: &[Version<u32>]) -> bool
    ensures { result ≡ payload.serials_ascend 0 versions.now }
{
    let mut before = 0;
    for version in versions {
        if version.serial <= before {
            return false;
        }
        before = version.serial;
    }
    true
}

fn serials_are_below(versions: &[Version<u32>], next: u64) -> bool
    ensures { result ≡ list_all (λ version. nat_lt version.serial next) versions.now }
{
    versions.iter().all(|version| version.serial < next)
}

fn names_ascend(checkpoints: &[Checkpoint]) -> bool
    ensures { result ≡ payload.names_ascend [] checkpoints.now }
{
    let mut before: &[u8] = &[];
    for checkpoint in checkpoints {
        let name = checkpoint.name.as_bytes();
        if before.cmp(name).is_ge() {
            return false;
        }
        before = name;
    }
    true
}

fn numbers_ascend(numbers: &[u32]) -> bool
    ensures { result ≡ payload.numbers_ascend 0 numbers.now }
{
    let mut least = 0;
    for number in numbers {
        if (*number as u64) < least {
            return false;
        }
        least = *number as u64 + 1;
    }
    true
}

fn numbers_are_below(numbers: &[u32], end: u32) -> bool
    ensures { result ≡ list_all (λ number. nat_lt number end) numbers.now }
{
    numbers.iter().all(|number| *number < end)
}
