//! What is counted.
use fs_types::{Answer, Fault};
use undofs::Told;

/// What became of images, and of the calls on those that mounted.
#[derive(Clone, Copy, Default)]
pub struct Tally {
    /// Images that mounted, that did not, by their refusal, and bytes that are no image.
    pub mounted: u64,
    pub damaged: u64,
    pub without_record: u64,
    pub of_other_sizes: u64,
    pub no_image: u64,
    /// Calls that were accepted, refused by the plain machine too, and beyond that for want of a block,
    /// in read-only mode and for want of a serial or a sequence.
    pub accepted: u64,
    pub refused: u64,
    pub full: u64,
    pub read_only: u64,
    pub exhausted: u64,
    /// Images with which something was wrong.
    pub wrong: u64,
}

impl Tally {
    /// Counts a mount that was refused.
    pub fn add_refusal(&mut self, fault: Fault) {
        match fault {
            Fault::Damaged => add(&mut self.damaged, 1),
            Fault::NoRecord => add(&mut self.without_record, 1),
            _ => add(&mut self.of_other_sizes, 1),
        }
    }

    /// Counts what was told.
    pub fn add_told(&mut self, told: &Told) {
        match told {
            Told::Answer(Answer::Refused(fault)) => self.add_refused(*fault),
            _ => add(&mut self.accepted, 1),
        }
    }

    fn add_refused(&mut self, fault: Fault) {
        match fault {
            Fault::FlashFull => add(&mut self.full, 1),
            Fault::ReadOnly => add(&mut self.read_only, 1),
            Fault::Overflow => add(&mut self.exhausted, 1),
            _ => add(&mut self.refused, 1),
        }
    }

    /// Counts what another has counted.
    pub fn add_all(&mut self, other: &Tally) {
        add(&mut self.mounted, other.mounted);
        add(&mut self.damaged, other.damaged);
        add(&mut self.without_record, other.without_record);
        add(&mut self.of_other_sizes, other.of_other_sizes);
        add(&mut self.no_image, other.no_image);
        add(&mut self.accepted, other.accepted);
        add(&mut self.refused, other.refused);
        add(&mut self.full, other.full);
        add(&mut self.read_only, other.read_only);
        add(&mut self.exhausted, other.exhausted);
        add(&mut self.wrong, other.wrong);
    }

    /// Whether enough images mounted, and enough were refused for each of the three reasons.
    pub fn is_enough(&self) -> bool {
        2_200 <= self.mounted
            && 100 <= self.damaged
            && 100 <= self.without_record
            && 100 <= self.of_other_sizes
    }

    /// Whether of one kind enough images mounted, and enough were refused as damaged.
    pub fn has_both(&self) -> bool {
        100 <= self.mounted && 100 <= self.damaged
    }
}

/// Counts so many more.
pub fn add(count: &mut u64, more: u64) {
    *count = count.saturating_add(more);
}
