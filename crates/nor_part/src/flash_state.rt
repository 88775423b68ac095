//! What a flash over a part keeps beside the part.
ghost use Rattle.std.specs.Prelude.{◌≡◌, vec_len};

use crate::sizes::{note, wear};
use flash_model::{DevFault, PageState};
use fs_types::Count;
use std::alloc::{AllocError, Global};

/// What a flash over a part keeps beside the part: whether power is on, which blocks are worn, which ones
/// it erased itself, and what happened. It asks two bytes a block.
#[derive(Drop)]
pub struct FlashState {
    powered: bool,
    worn: Vec<bool>,
    // Which blocks were erased here, as was answered, and not programmed since.
    cleaned: Vec<bool>,
    failed_reads: Count,
    failures: Count,
    cuts: Count,
    operations: Count,
    ghost all_noted: { vec_len cleaned ≡ vec_len worn },
}

impl FlashState {
    ghost use Rattle.std.specs.Prelude.{◌≡◌, ◌≢◌, ℕ, ◌+◌, ◌<◌, IfOk, OnOk, OnErr, IfErr, Err, true, false, slice_index_or};
    ghost use Rattle.flash_model.specs.Device.{Page, LeavesBeside};
    ghost use Rattle.flash_model.specs.declared.geometry.Geometry.{Geometry};
    ghost use Rattle.nor_part.specs.States.{device_with, block_total, cleaned_of, is_cleaned, is_powered, IsNewState, read_ended};

    /// Of a flash of so many blocks, with power on, to which nothing happened.
    pub fn new(alloc: Global, blocks: u32) -> Result<FlashState, AllocError>
        ensures { IfOk result (IsNewState blocks) }
    {
        Ok(FlashState {
            powered: true,
            worn: vec![in alloc; false; blocks as usize]?,
            cleaned: vec![in alloc; false; blocks as usize]?,
            failed_reads: Count::zero(),
            failures: Count::zero(),
            cuts: Count::zero(),
            operations: Count::zero(),
        })
    }

    /// An operation begins. With the power off none does.
    pub fn begin(&mut self) -> Result<(), DevFault>
        ensures begun { OnOk result ((sizes : Geometry) (pages : ℕ → Page) → device_with sizes pages self.new ≡ record (device_with sizes pages self.old) { operations = (device_with sizes pages self.old).operations + 1 }) }
        ensures on { OnOk result (is_powered self.old ≡ true) }
        ensures still_on { OnOk result (is_powered self.new ≡ true) }
        ensures cleaned { cleaned_of self.new ≡ cleaned_of self.old }
        ensures blocks { block_total self.new ≡ block_total self.old }

        // With the power off nothing changes.
        ensures err { IfErr result (λ fault. fault ≡ DevFault.PowerCut) }
        ensures off { OnErr result (is_powered self.old ≡ false) }
        ensures same { OnErr result (self.new ≡ self.old) }
    {
        if !self.powered {
            return Err(DevFault::PowerCut);
        }
        self.operations = self.operations.more();
        Ok(())
    }

    /// Ends a read by its answer: a failed one is counted, and in a cut power goes.
    pub fn end_read(&mut self, read: Result<PageState, DevFault>) -> Result<PageState, DevFault>
        requires { is_powered self.old ≡ true }
        ensures same { result ≡ read }
        ensures ends { (sizes : Geometry) (pages : ℕ → Page) → device_with sizes pages self.new ≡ read_ended (device_with sizes pages self.old) read }
        ensures cleaned { cleaned_of self.new ≡ cleaned_of self.old }
        ensures blocks { block_total self.new ≡ block_total self.old }
    {
        self.powered = !matches!(read, Err(DevFault::PowerCut));
        match read {
            Ok(_) => {}
            Err(DevFault::Failed) => self.failed_reads = self.failed_reads.more(),
            Err(DevFault::PowerCut) => self.cuts = self.cuts.more(),
        }
        read
    }

    /// Ends a program or an erase in a block by its answer: a failure wears the block, and in a cut power
    /// goes.
    pub fn end(&mut self, block: u32, done: Result<(), DevFault>) -> Result<(), DevFault>
        requires in_range { block < block_total self.old }
        requires on { is_powered self.old ≡ true }
        ensures same { result ≡ done }
        ensures ends { (sizes : Geometry) (pages : ℕ → Page) → LeavesBeside (device_with sizes pages self.old) block (device_with sizes pages self.new) done }
        ensures cleaned { cleaned_of self.new ≡ cleaned_of self.old }
        ensures blocks { block_total self.new ≡ block_total self.old }
    {
        match done {
            Ok(()) => {}
            Err(DevFault::Failed) => {
                wear(&mut self.worn, block as usize);
                self.failures = self.failures.more();
            }
            Err(DevFault::PowerCut) => {
                self.powered = false;
                self.cuts = self.cuts.more();
            }
        }
        done
    }

    /// Whether a block was erased by this flash, as was answered, and not programmed since.
    pub fn is_cleaned(&self, block: u32) -> bool
        requires { block < block_total self.now }
        ensures { result ≡ is_cleaned self.now block }
    {
        self.cleaned[block as usize]
    }

    /// Whether a block was so erased, from now on.
    pub fn note_cleaned(&mut self, block: u32, is_clean: bool)
        requires { block < block_total self.old }
        ensures own { is_cleaned self.new block ≡ is_clean }
        ensures others { (b : ℕ) → b ≢ block → is_cleaned self.new b ≡ is_cleaned self.old b }
        ensures device { (sizes : Geometry) (pages : ℕ → Page) → device_with sizes pages self.new ≡ device_with sizes pages self.old }
        ensures powered { is_powered self.new ≡ is_powered self.old }
        ensures blocks { block_total self.new ≡ block_total self.old }
    {
        note(&mut self.cleaned, block as usize, is_clean);
    }

    /// Power is on from now on.
    pub fn power_on(&mut self)
        ensures device { (sizes : Geometry) (pages : ℕ → Page) → device_with sizes pages self.new ≡ record (device_with sizes pages self.old) { powered = true } }
        ensures cleaned { cleaned_of self.new ≡ cleaned_of self.old }
        ensures blocks { block_total self.new ≡ block_total self.old }
    {
        self.powered = true;
    }
}
