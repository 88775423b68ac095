//! Why a call on a history is refused.
ghost use Rattle.std.specs.Prelude.{◌≡◌, ◌<◌, ◌==◌};
ghost use Rattle.std.specs.Bool.{OnFalse};
ghost use Rattle.std.specs.Result.{result_err};
ghost use Rattle.history_machine.specs.History.{undo_refusal, redo_refusal, serial_refusal, forget_refusal, checkpoint_refusal, name_refusal};

use crate::histories::History;
use fs_types::{CpName, Fault, MAX_CHECKPOINTS};

impl<R> History<R> {
    /// Whether no serial is left for a change: the next one would be the greatest `u64`.
    pub fn is_exhausted(&self) -> bool
        ensures value { result ≡ (self.now.next == u64.MAX) }
        ensures room { OnFalse result (self.now.next < u64.MAX) }
    {
        self.next == u64::MAX
    }

    /// Refuses an undo: [`Fault::TooOld`] where versions were dropped, else [`Fault::NothingToUndo`].
    pub fn check_undo(&self) -> Result<(), Fault>
        ensures { result_err result ≡ undo_refusal self.now }
    {
        if self.cursor > 0 {
            return Ok(());
        }
        if self.dropped {
            Err(Fault::TooOld)
        } else {
            Err(Fault::NothingToUndo)
        }
    }

    /// Refuses a redo: [`Fault::NothingToRedo`].
    pub fn check_redo(&self) -> Result<(), Fault>
        ensures { result_err result ≡ redo_refusal self.now }
    {
        if self.cursor + 1 < self.versions.len() {
            Ok(())
        } else {
            Err(Fault::NothingToRedo)
        }
    }

    /// Refuses a serial that no kept version has, as `goto` does.
    pub fn check_goto(&self, serial: u64) -> Result<(), Fault>
        ensures { result_err result ≡ serial_refusal self.now serial }
    {
        self.place_of_serial(serial)?;
        Ok(())
    }

    /// Refuses to drop so many versions: [`Fault::Invalid`].
    pub fn check_forget(&self, count: u64) -> Result<(), Fault>
        ensures { result_err result ≡ forget_refusal self.now count }
    {
        if count > self.cursor as u64 {
            Err(Fault::Invalid)
        } else {
            Ok(())
        }
    }

    /// Refuses a name for a checkpoint: [`Fault::Exists`] where it is there, and
    /// [`Fault::CheckpointsFull`] where there are sixteen.
    pub fn check_checkpoint(&self, name: &CpName) -> Result<(), Fault>
        ensures { result_err result ≡ checkpoint_refusal self.now name.now }
    {
        if self.checkpoints.contains_key(name) {
            return Err(Fault::Exists);
        }
        if self.checkpoints.len() >= MAX_CHECKPOINTS {
            return Err(Fault::CheckpointsFull);
        }
        Ok(())
    }

    /// Refuses a name that no checkpoint has: [`Fault::NoSuchVersion`].
    pub fn check_name(&self, name: &CpName) -> Result<(), Fault>
        ensures { result_err result ≡ name_refusal self.now name.now }
    {
        self.checkpoint_root(name)?;
        Ok(())
    }
}
