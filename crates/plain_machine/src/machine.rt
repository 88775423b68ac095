//! The machine, and its step.
ghost use Rattle.std.specs.Prelude.{◌≡◌, ◌<◌, ◌≤◌, min, true, if◌then◌else◌, Some, None, IfOk, IfErr, OnOk, OnErr};
ghost use Rattle.plain_trees.specs.Trees.{bare};
ghost use Rattle.history_machine.specs.History.{fresh};
ghost use Rattle.history_machine.specs.Machine as machine;
ghost use Rattle.fs_types.specs.declared.limits.TheConstants.{MAX_VERSIONS};
ghost use Rattle.fs_types.specs.declared.fault.Fault.{Fault};
ghost use Rattle.plain_machine.specs.Restoring.{history_of_parts, is_history};
ghost use Rattle.plain_machine.specs.Plain.{HasSerial, IsPlainStep};
ghost use Rattle.plain_machine.specs.Spaces.{space_of};
ghost use Rattle.history_machine.specs.Machine.{machine_with};

use crate::groups::adopt;
use crate::needs::change_need;
use crate::parts::history_of;
use crate::refusals::refusal;
use crate::space::Space;
use crate::{effects, replies};
use fs_types::{Call, CpName, Fault, Group, Reply, Version};
use machine_state::{History, OpenFiles};
use memory_trees::Tree;
use std::alloc::{AllocError, Global};
use std::collections::BTreeMap;
use std::marker::Model;

/// A whole file system in memory: a history of trees, the change group that is open, if one is, and the
/// open files.
#[derive(Drop)]
pub struct PlainMachine {
    history: History<Tree>,
    group: Option<Group<Tree>>,
    files: OpenFiles,
}

impl Model for PlainMachine {
    ghost use Rattle.history_machine.specs.Machine.{Machine, machine_with};
    ghost use Rattle.plain_machine.specs.Codes.{machine_code};

    ghost Value = { Machine };

    ghost coded = { machine_code };

    ghost view = { λ m. machine_with m.history m.group m.files };
}

impl PlainMachine {
    /// A fresh system, which keeps `limit` versions, 2 to 128. The only error is [`Fault::NoMemory`].
    pub fn new(alloc: Global, limit: usize) -> Result<PlainMachine, Fault>
        requires low { 2 ≤ limit }
        requires high { limit ≤ MAX_VERSIONS }
        ensures machine { IfOk result (λ m. m ≡ machine.mounted (fresh limit bare)) }
        ensures refused { IfErr result (λ fault. fault ≡ Fault.NoMemory) }
    {
        Ok(PlainMachine {
            history: History::new(alloc, limit, Tree::bare(alloc)?)?,
            group: None,
            files: OpenFiles::new(),
        })
    }

    /// A system with a history of these parts, and no open file. [`Fault::Invalid`] where no system
    /// may keep it: `limit` is 2 to 128, there are no more versions than that, their serials ascend from
    /// 1 on below the next one, `cursor` is the place of one of them, and there are at most 16
    /// checkpoints. Else [`Fault::NoMemory`].
    pub fn restore(
        alloc: Global,
        versions: Vec<Version<Tree>>,
        cursor: usize,
        dropped: bool,
        next: u64,
        checkpoints: BTreeMap<CpName, Tree>,
        limit: usize,
    ) -> Result<PlainMachine, Fault>
        ensures machine { IfOk result (λ m. m ≡ machine.mounted (history_of_parts versions.items cursor dropped next checkpoints.entries limit)) }
        ensures kept { OnOk result (is_history (history_of_parts versions.items cursor dropped next checkpoints.entries limit) ≡ true) }
        ensures refused { IfErr result (λ fault. fault ≡ (if is_history (history_of_parts versions.items cursor dropped next checkpoints.entries limit) then Fault.NoMemory else Fault.Invalid)) }
    {
        Ok(PlainMachine {
            history: history_of(alloc, versions, cursor, dropped, next, checkpoints, limit)?,
            group: None,
            files: OpenFiles::new(),
        })
    }

    /// Carries out a call, in a file system on a flash of which so much is used.
    ///
    /// Beside the refusals of the call: [`Fault::Overflow`] exactly where the call would make a version
    /// and the next serial is the greatest `u64`; and [`Fault::NoMemory`], which leaves all as it was.
    pub fn step(&mut self, alloc: Global, space: Space, call: &Call) -> Result<Reply, Fault>
        ensures { IsPlainStep (space_of space) self.old call.now result self.new }
    {
        if let Some(fault) = refusal(&self.history, &self.group, &self.files, call) {
            return Err(fault);
        }
        if self.history.is_exhausted() {
            if effects::makes_version(&self.history, &self.group, &self.files, call) {
                return Err(Fault::Overflow);
            }
        }
        carry_out(
            alloc,
            &mut self.history,
            &mut self.group,
            &mut self.files,
            space,
            call,
        )
    }

    /// How many nodes a call may write on a flash, where a node of a file's body has room for so many
    /// data bytes, one at least; the greatest `u64` where it is more. 0 for a call that is refused or
    /// changes no tree. The tree after the call is made for it: the only error is want of memory.
    pub fn need(&self, alloc: Global, capacity: u64, call: &Call) -> Result<u64, AllocError>
        requires { 0 < capacity }
        ensures { IfOk result (λ nodes. nodes ≡ min (machine.need capacity self.now call.now) u64.MAX) }
    {
        if refusal(&self.history, &self.group, &self.files, call).is_some() {
            return Ok(0);
        }
        let Some(after) = effects::tree_after(alloc, &self.history, &self.group, &self.files, call)?
        else {
            return Ok(0);
        };
        Ok(change_need(
            &self.history,
            &self.group,
            &self.files,
            &after,
            capacity,
            call,
        ))
    }
}

/// Carries out a call that is not refused. The only error is [`Fault::NoMemory`].
fn carry_out(
    alloc: Global,
    history: &mut History<Tree>,
    group: &mut Option<Group<Tree>>,
    files: &mut OpenFiles,
    space: Space,
    call: &Call,
) -> Result<Reply, Fault>
    requires accepted { machine.refusal (machine_with history.old group.old files.old) call.now ≡ None }
    requires serial { HasSerial (machine_with history.old group.old files.old) call.now }

    // what it answers and leaves
    ensures reply { IfOk result (λ reply. reply ≡ machine.reply_of (space_of space) (machine_with history.old group.old files.old) call.now) }
    ensures history { OnOk result (history.new ≡ machine.history_after (machine_with history.old group.old files.old) call.now) }
    ensures group { OnOk result (group.new ≡ machine.group_after (machine_with history.old group.old files.old) call.now) }
    ensures files { OnOk result (files.new ≡ machine.descriptors_after (machine_with history.old group.old files.old) call.now) }

    // without memory all stays
    ensures refused { IfErr result (λ fault. fault ≡ Fault.NoMemory) }
    ensures err_history { OnErr result (history.new ≡ history.old) }
    ensures err_group { OnErr result (group.new ≡ group.old) }
    ensures err_files { OnErr result (files.new ≡ files.old) }
{
    let reply = replies::reply(alloc, history, group, files, space, call)?;
    let file = effects::opened_file(call)?;
    match effects::tree_after(alloc, history, group, files, call)? {
        Some(tree) => adopt(history, group, tree),
        None => effects::move_history(history, group, call)?,
    }
    effects::settle_files(files, call, file);
    Ok(reply)
}
