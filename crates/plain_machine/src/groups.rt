//! The change group of a machine, and the trees that calls look at by it.
ghost use Rattle.std.specs.Prelude.{◌≡◌, ◌<◌, true, false, Some, None, is_some, unwrap_or, OnOk, OnErr, IfErr, MatchResult};
ghost use Rattle.std.specs.Option.{option_map_or};
ghost use Rattle.plain_trees.specs.Trees.{bare};
ghost use Rattle.history_machine.specs.History.{changed, present_root, view_refusal, working_root, seen_root, history_with, group_with, due_root};

use fs_types::{Fault, Group, View};
use machine_state::History;
use memory_trees::Tree;

/// The tree that calls work on: the group's, where one is open, else the present one.
pub fn working_tree<'a>(history: &'a History<Tree>, group: &'a Option<Group<Tree>>) -> &'a Tree
    ensures { working_root history.now group.now ≡ Some result.now }
{
    match group {
        Some(group) => &group.root,
        None => history.root(),
    }
}

/// The tree that a view shows, or why there is none. A serial or a checkpoint does not see the group.
pub fn seen_tree<'a>(
    history: &'a History<Tree>,
    group: &'a Option<Group<Tree>>,
    view: &View,
) -> Result<&'a Tree, Fault>
    ensures { MatchResult result (λ tree. (view_refusal history.now view.now ≡ None) × (seen_root history.now group.now view.now ≡ Some tree.now))
        (λ fault. view_refusal history.now view.now ≡ Some fault) }
{
    match view {
        View::Present => Ok(working_tree(history, group)),
        _ => history.find(view),
    }
}

/// A change of the tree: of the group, where one is open, else a version of the history.
pub fn adopt(history: &mut History<Tree>, group: &mut Option<Group<Tree>>, root: Tree)
    requires { group.old ≡ None → history.old.next < u64.MAX }
    ensures history { history.new ≡ history_with history.old group.old root }
    ensures group { group.new ≡ group_with group.old root }
{
    if group.is_some() {
        *group = Some(Group { root, is_due: true });
    } else {
        history.push(root);
    }
}

/// A group begins with a copy of the present tree. The only error is [`Fault::NoMemory`], which leaves
/// the group as it was.
pub fn begin(history: &History<Tree>, group: &mut Option<Group<Tree>>) -> Result<(), Fault>
    ensures ok { OnOk result (group.new ≡ Some (record { root = unwrap_or (present_root history.now) bare; is_due = false })) }
    ensures refused { IfErr result (λ fault. fault ≡ Fault.NoMemory) }
    ensures err { OnErr result (group.new ≡ group.old) }
{
    let root = history.root().clone()?;
    *group = Some(Group {
        root,
        is_due: false,
    });
    Ok(())
}

/// The group ends: its tree becomes a version, where one is due.
pub fn end(history: &mut History<Tree>, group: &mut Option<Group<Tree>>)
    requires { is_some (due_root group.old) ≡ true → history.old.next < u64.MAX }
    ensures history { history.new ≡ option_map_or (changed history.old) (due_root group.old) history.old }
    ensures group { group.new ≡ None }
{
    if let Some(ended) = group.take() {
        if ended.is_due {
            history.push(ended.root);
        }
    }
}
