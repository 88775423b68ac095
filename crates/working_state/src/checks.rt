//! What calls check before they work, and what they remember after it.
ghost use Rattle.std.specs.Prelude.{◌≡◌, ◌||◌, true, false, is_some, Some, None, IfErr, OnOk};
ghost use Rattle.history_machine.specs.Descriptors.{any_open};
ghost use Rattle.fs_types.specs.Requests.{call_of};
ghost use Rattle.fs_types.specs.declared.fault.Fault.{Fault};
ghost use Rattle.working_state.specs.Changes.{LeavesSerial, CheckCause};
ghost use Rattle.bad_blocks.specs.Mode.{is_read_only};
ghost use Rattle.working_state.specs.Steps.{is_cut_answer};
ghost use Rattle.working_state.specs.Facts.{group_refusal};

use crate::state::State;
use bad_blocks::is_read_only;
use fs_types::{Fault, Group, Request};
use machine_state::History;
use node_store::Storage;

impl State {
    /// Refuses a call where an earlier one answered that the power is off.
    pub fn check_power(&self) -> Result<(), Fault>
        ensures ok { OnOk result (self.now.is_off ≡ false) }
        ensures off { IfErr result (λ fault. (fault ≡ Fault.PowerCut) × (self.now.is_off ≡ true)) }
    {
        if self.is_off {
            Err(Fault::PowerCut)
        } else {
            Ok(())
        }
    }

    /// Refuses a call on the history in a change group.
    pub fn check_outside(&self) -> Result<(), Fault>
        ensures ok { OnOk result (self.now.group ≡ None) }
        ensures err { IfErr result (λ fault. (fault ≡ Fault.InGroup) × (is_some self.now.group ≡ true)) }
    {
        if self.group.is_some() {
            Err(Fault::InGroup)
        } else {
            Ok(())
        }
    }

    /// Refuses to end a change group where none is open.
    fn check_inside(&self) -> Result<(), Fault>
        ensures ok { OnOk result (is_some self.now.group ≡ true) }
        ensures err { IfErr result (λ fault. (fault ≡ Fault.NoGroup) × (self.now.group ≡ None)) }
    {
        if self.group.is_none() {
            Err(Fault::NoGroup)
        } else {
            Ok(())
        }
    }

    /// Refuses to move the present version, and to begin or end a change group, while a file is open.
    fn check_none_open(&self) -> Result<(), Fault>
        ensures ok { OnOk result (any_open self.now.files ≡ false) }
        ensures err { IfErr result (λ fault. (fault ≡ Fault.Busy) × (any_open self.now.files ≡ true)) }
    {
        if self.files.any_open() {
            Err(Fault::Busy)
        } else {
            Ok(())
        }
    }

    /// Refuses a call on the history in a change group, one that ends a group where none is open, and,
    /// while a file is open, one that moves the present version, or begins or ends a group.
    pub(crate) fn check_group(&self, request: Request<'_>) -> Result<(), Fault>
        ensures ok { OnOk result (group_refusal self.now.group self.now.files (call_of request.entry) ≡ None) }
        ensures err { IfErr result (λ fault. group_refusal self.now.group self.now.files (call_of request.entry) ≡ Some fault) }
    {
        match request {
            Request::Undo
            | Request::Redo
            | Request::Goto { .. }
            | Request::Rollback { .. }
            | Request::Begin => {
                self.check_outside()?;
                self.check_none_open()
            }
            Request::Forget { .. }
            | Request::Checkpoint { .. }
            | Request::RemoveCheckpoint { .. }
            | Request::Sync => self.check_outside(),
            Request::End | Request::Abandon => {
                self.check_inside()?;
                self.check_none_open()
            }
            _ => Ok(()),
        }
    }

    /// Remembers that the power is off, where a call answers that.
    pub fn remember_cut<T>(&mut self, answer: Result<T, Fault>) -> Result<T, Fault>
        ensures same { result ≡ answer }
        ensures off { self.new ≡ record self.old { is_off = self.old.is_off || is_cut_answer answer } }
    {
        if let Err(Fault::PowerCut) = &answer {
            self.is_off = true;
        }
        answer
    }
}

/// Refuses in read-only mode.
pub(crate) fn check_writable(storage: &Storage) -> Result<(), Fault>
    ensures ok { OnOk result (is_read_only storage.now.bad ≡ false) }
    ensures err { IfErr result (λ fault. (fault ≡ Fault.ReadOnly) × (is_read_only storage.now.bad ≡ true)) }
{
    if is_read_only(&storage.bad) {
        Err(Fault::ReadOnly)
    } else {
        Ok(())
    }
}

/// Refuses a change in read-only mode, and outside a group where no serial is left for it.
pub(crate) fn check_change(
    history: &History<u32>,
    group: &Option<Group<u32>>,
    storage: &Storage,
) -> Result<(), Fault>
    ensures writable { OnOk result (is_read_only storage.now.bad ≡ false) }
    ensures serial { OnOk result (LeavesSerial history.now group.now) }
    ensures err { IfErr result (λ fault. CheckCause history.now group.now storage.now fault storage.now) }
{
    check_writable(storage)?;
    if group.is_none() && history.is_exhausted() {
        Err(Fault::Overflow)
    } else {
        Ok(())
    }
}
