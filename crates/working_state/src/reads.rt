//! Bytes of files, on the working state and the flash.
ghost use Rattle.std.specs.Prelude.{◌≡◌, ℕ, ◌+◌, ◌-◌, ◌≤◌, true, false, length, is_some, Some, IfOk, IfErr};
ghost use Rattle.std.specs.Option.{option_map_or, ForSome};
ghost use Rattle.plain_trees.specs.Trees.{bytes_of_file};
ghost use Rattle.history_machine.specs.History.{working_root};
ghost use Rattle.history_machine.specs.Descriptors.{Descriptor, descriptor_at, can_read};
ghost use Rattle.fs_types.specs.declared.call.Call.{Call};
ghost use Rattle.fs_types.specs.declared.call.Reply.{Reply};
ghost use Rattle.fs_types.specs.declared.fault.Fault.TheVariants.{BadDescriptor};
ghost use Rattle.node_format.specs.Headers.{body_header};
ghost use Rattle.node_store.specs.NodePages.{node_of};
ghost use Rattle.nodes.specs.Words.{Looks};
ghost use Rattle.nodes.specs.Trees.{root_tree, IsRoot};
ghost use Rattle.node_store.specs.Faults.{is_look_fault};
ghost use Rattle.working_state.specs.Changes.{IsReady};
ghost use Rattle.working_state.specs.Leaves.{HasLooked};
ghost use Rattle.working_state.specs.Looking.{AsksForRange, IsReadOf, look_nodes};
ghost use Rattle.working_state.specs.Mounted.{IsMounted};
ghost use Rattle.working_state.specs.Reading.{file_refusal, IsRead};
ghost use Rattle.working_state.specs.OpenBodies.{IsBodyAt, KnowsBelow, KnowsBodies};
ghost use Rattle.working_state.specs.Seen.{capacity_of, tree_on, seen_of};
ghost use Rattle.working_state.specs.Steps.{replied};
ghost use Rattle.working_state.specs.Worked.{WorkCause};
ghost use Rattle.working_state.specs.Moments.{IsAnswered, moment};

use crate::known_bodies::{KnownBodies, KnownBody};
use crate::state::State;
use bitflags::Flags;
use directory::{Found, lookup};
use flash_model::Flash;
use fs_types::{Bytes, Fault, OpenFlags, Path, View};
use machine_state::OpenFiles;
use node_store::{Nodes, Storage, Store};
use std::alloc::Global;
use tree_edits::{Body, read_range};

impl State {
    /// The bytes of a file of the tree that a view shows, from `offset` on, at most `count`.
    pub(crate) fn read_view<F: Flash>(
        &mut self,
        alloc: Global,
        flash: &mut F,
        view: &View,
        path: &Path,
        offset: u64,
        count: u64,
    ) -> Result<Bytes, Fault>
        requires { IsMounted (F.device flash.old) self.old }
        ensures { IsAnswered (moment (F.device flash.old) self.old) (Call.ReadAt view.now path.now offset count) (replied Reply.Bytes result) (moment (F.device flash.new) self.new) }
    {
        let root = self.seen(view)?;
        let (bytes, _) = read_below(
            alloc,
            flash,
            &mut self.storage,
            root,
            path,
            None,
            offset,
            count,
        )?;
        Ok(bytes)
    }

    /// The bytes of an open file, from `offset` on, at most `count`. Its path is looked up where nothing is
    /// known of its body, which is remembered then, with the node of the last of the bytes.
    pub(crate) fn read_open<F: Flash>(
        &mut self,
        alloc: Global,
        flash: &mut F,
        bodies: &mut KnownBodies,
        descriptor: u64,
        offset: u64,
        count: u64,
    ) -> Result<Bytes, Fault>
        requires mounted { IsMounted (F.device flash.old) self.old }
        requires known { KnowsBodies (F.device flash.old) self.old bodies.old }
        ensures answered { IsAnswered (moment (F.device flash.old) self.old) (Call.Pread descriptor offset count) (replied Reply.Bytes result) (moment (F.device flash.new) self.new) }
        ensures known { (root : ℕ) → working_root self.old.history self.old.group ≡ Some root → KnowsBelow (F.device flash.new) root self.old.files bodies.new }
    {
        let root = self.root();
        let path = readable(&self.files, descriptor)?;
        let known = bodies.get(descriptor);
        let (bytes, known) = read_below(
            alloc,
            flash,
            &mut self.storage,
            root,
            path,
            known,
            offset,
            count,
        )?;
        bodies.remember(descriptor, known);
        Ok(bytes)
    }
}

/// The path of an open file that is open for reading.
fn readable(files: &OpenFiles, descriptor: u64) -> Result<&Path, Fault>
    ensures found { IfOk result (λ path. (file : Descriptor) × (descriptor_at files.now descriptor ≡ Some file) × (can_read file.flags ≡ true) × (path.now ≡ file.path)) }
    ensures refused { IfErr result (λ fault. (fault ≡ BadDescriptor) × (option_map_or (λ file. can_read file.flags) (descriptor_at files.now descriptor) false ≡ false)) }
{
    match files.get(descriptor) {
        Some(file) if file.flags().contains(OpenFlags::READ) => Ok(file.path()),
        _ => Err(Fault::BadDescriptor),
    }
}

/// The bytes of the file that a path below a root leads to, from `offset` on, at most `count`, and what is
/// known of its body then. Where that was known before, the path is not looked up.
fn read_below<F: Flash>(
    alloc: Global,
    flash: &mut F,
    storage: &mut Storage,
    root: u32,
    path: &Path,
    known: Option<KnownBody>,
    offset: u64,
    count: u64,
) -> Result<(Bytes, KnownBody), Fault>
    requires ready { IsReady (F.device flash.old) storage.old }
    requires rooted { IsRoot (capacity_of (F.device flash.old)) (node_of (F.device flash.old)) root }
    requires known { ForSome known (IsBodyAt (capacity_of (F.device flash.old)) (node_of (F.device flash.old)) root path.now) }
    ensures looked { HasLooked (F.device flash.old) storage.old (F.device flash.new) storage.new }
    ensures asks { AsksForRange (F.device flash.old) (look_nodes (tree_on (F.device flash.old) root) path.now) (bytes_of_file (tree_on (F.device flash.old) root) path.now) offset count (F.device flash.new) }
    ensures read { IfOk result (λ r. IsRead (tree_on (F.device flash.old) root) path.now offset count r.0) }
    ensures known { IfOk result (λ r. IsBodyAt (capacity_of (F.device flash.old)) (node_of (F.device flash.old)) root path.now r.1) }
    ensures refused { IfErr result (λ fault. is_look_fault fault ≡ false → file_refusal (tree_on (F.device flash.old) root) path.now ≡ Some fault) }
    ensures why { IfErr result (λ fault. is_look_fault fault ≡ true → WorkCause (seen_of (F.device flash.old) storage.old) fault (seen_of (F.device flash.new) storage.new)) }
{
    let mut store = Store::new(flash, storage);
    read_file(alloc, &mut store, root, path, known, offset, count)
}

/// The same, of any nodes.
fn read_file<N: Nodes>(
    alloc: Global,
    nodes: &mut N,
    root: u32,
    path: &Path,
    known: Option<KnownBody>,
    offset: u64,
    count: u64,
) -> Result<(Bytes, KnownBody), Fault>
    requires sound { N.is_sound nodes.old }
    requires rooted { IsRoot (N.limit nodes.old - body_header) (N.node nodes.old) root }
    requires known { ForSome known (IsBodyAt (N.limit nodes.old - body_header) (N.node nodes.old) root path.now) }

    // What was read, and why not.
    ensures read { IfOk result (λ r. IsRead (root_tree (N.limit nodes.old - body_header) (N.node nodes.old) root) path.now offset count r.0) }
    ensures known { IfOk result (λ r. IsBodyAt (N.limit nodes.old - body_header) (N.node nodes.old) root path.now r.1) }
    ensures refused { IfErr result (λ fault. is_look_fault fault ≡ false → file_refusal (root_tree (N.limit nodes.old - body_header) (N.node nodes.old) root) path.now ≡ Some fault) }
    ensures why { IfErr result (λ fault. is_look_fault fault ≡ true → N.causes nodes.old nodes.new fault) }

    // What was asked of the nodes.
    ensures reads { (most : ℕ) → IsReadOf (N.limit nodes.old - body_header) (look_nodes (root_tree (N.limit nodes.old - body_header) (N.node nodes.old) root) path.now) (bytes_of_file (root_tree (N.limit nodes.old - body_header) (N.node nodes.old) root) path.now) offset count most → N.reads nodes.new ≤ N.reads nodes.old + most }
    ensures writes { N.writes nodes.new ≡ N.writes nodes.old }
    ensures follows { N.follows nodes.old nodes.new }
{
    let found = body_of(nodes, root, path, known)?;
    let (bytes, node) = read_range(alloc, nodes, found.body, found.node, offset, count)?;
    Ok((bytes, KnownBody { node, ..found }))
}

/// What is known of the body of the file at a path below a root; where nothing is, the path is looked up.
fn body_of<N: Nodes>(
    nodes: &mut N,
    root: u32,
    path: &Path,
    known: Option<KnownBody>,
) -> Result<KnownBody, Fault>
    requires sound { N.is_sound nodes.old }
    requires rooted { IsRoot (N.limit nodes.old - body_header) (N.node nodes.old) root }
    requires known { ForSome known (IsBodyAt (N.limit nodes.old - body_header) (N.node nodes.old) root path.now) }

    // What was found, and why not.
    ensures found { IfOk result (IsBodyAt (N.limit nodes.old - body_header) (N.node nodes.old) root path.now) }
    ensures refused { IfErr result (λ fault. is_look_fault fault ≡ false → file_refusal (root_tree (N.limit nodes.old - body_header) (N.node nodes.old) root) path.now ≡ Some fault) }
    ensures why { IfErr result (λ fault. is_look_fault fault ≡ true → N.causes nodes.old nodes.new fault) }

    // What was asked of the nodes: nothing, where it is known.
    ensures looks { Looks N.Nodes nodes.old nodes.new }
    ensures reads { N.reads nodes.new ≤ N.reads nodes.old + look_nodes (root_tree (N.limit nodes.old - body_header) (N.node nodes.old) root) path.now }
    ensures unread { is_some known ≡ true → nodes.new ≡ nodes.old }
{
    match known {
        Some(known) => Ok(known),
        None => find_file(nodes, root, path),
    }
}

/// The body of the file that a path below a root leads to.
fn find_file<N: Nodes>(nodes: &mut N, root: u32, path: &Path) -> Result<KnownBody, Fault>
    requires sound { N.is_sound nodes.old }
    requires rooted { IsRoot (N.limit nodes.old - body_header) (N.node nodes.old) root }

    // What was found, and why not.
    ensures found { IfOk result (IsBodyAt (N.limit nodes.old - body_header) (N.node nodes.old) root path.now) }
    ensures refused { IfErr result (λ fault. is_look_fault fault ≡ false → file_refusal (root_tree (N.limit nodes.old - body_header) (N.node nodes.old) root) path.now ≡ Some fault) }
    ensures why { IfErr result (λ fault. is_look_fault fault ≡ true → N.causes nodes.old nodes.new fault) }

    // What was asked of the nodes.
    ensures looks { Looks N.Nodes nodes.old nodes.new }
    ensures reads { N.reads nodes.new ≤ N.reads nodes.old + look_nodes (root_tree (N.limit nodes.old - body_header) (N.node nodes.old) root) path.now }
{
    match lookup(nodes, root, path)? {
        Found::Missing { .. } => Err(Fault::NoEntry),
        Found::Dir { .. } => Err(Fault::IsDirectory),
        Found::File { head, length } => Ok(KnownBody {
            body: Body { head, length },
            node: None,
        }),
    }
}
