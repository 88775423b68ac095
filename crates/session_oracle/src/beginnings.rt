//! Where a session begins: the history that is mounted then.
use crate::shows::Shows;
use crate::trees::{Root, below, path_of};
use fs_types::{Call, CpName, Fault, Name, Reply, Stat, Version};
use memory_trees::{Node, Tree};
use plain_machine::PlainMachine;
use std::alloc::Global;
use std::collections::BTreeMap;

/// No tree that a session begins with has more directories.
const MOST_DIRECTORIES: u32 = 4_096;

/// A history with whole trees, as a system shows it.
#[derive(Drop)]
pub struct Beginning {
    versions: Vec<Version<Tree>>,
    cursor: usize,
    dropped: bool,
    next: u64,
    checkpoints: Vec<(CpName, Tree)>,
    limit: usize,
}

impl Beginning {
    /// That of a new file system that keeps so many versions.
    pub fn fresh(alloc: Global, limit: usize) -> Result<Beginning, Fault> {
        let mut beginning = Beginning::bare(alloc, limit);
        let root = Tree::bare(alloc)?;
        beginning.versions.push(Version { serial: 1, root })?;
        Ok(beginning)
    }

    fn bare(alloc: Global, limit: usize) -> Beginning {
        Beginning {
            versions: Vec::new(alloc),
            cursor: 0,
            dropped: false,
            next: 2,
            checkpoints: Vec::new(alloc),
            limit,
        }
    }

    /// That which a system shows, which keeps so many versions. [`Fault::Damaged`] where a tree is not
    /// whole: each name that is listed stands there, and each file has as many bytes as are told.
    pub fn shown<S: Shows>(
        alloc: Global,
        system: &mut S,
        limit: usize,
    ) -> Result<Beginning, Fault> {
        let mut beginning = Beginning::bare(alloc, limit);
        match system.ask(alloc, &Call::Log)? {
            Reply::Log {
                next,
                dropped,
                versions,
                cursor,
                checkpoints,
            } => {
                beginning.next = next;
                beginning.dropped = dropped;
                beginning.cursor = usize::try_from(cursor).map_err(|_| Fault::Damaged)?;
                beginning.read_versions(alloc, system, versions.as_slice())?;
                beginning.read_checkpoints(alloc, system, checkpoints.as_slice())?;
                Ok(beginning)
            }
            _ => Err(Fault::Damaged),
        }
    }

    fn read_versions<S: Shows>(
        &mut self,
        alloc: Global,
        system: &mut S,
        serials: &[u64],
    ) -> Result<(), Fault> {
        for serial in serials {
            let root = read_tree(alloc, system, Root::Serial(*serial))?;
            let version = Version {
                serial: *serial,
                root,
            };
            self.versions.push(version)?;
        }
        Ok(())
    }

    fn read_checkpoints<S: Shows>(
        &mut self,
        alloc: Global,
        system: &mut S,
        names: &[CpName],
    ) -> Result<(), Fault> {
        for name in names {
            let tree = read_tree(alloc, system, Root::Checkpoint(name))?;
            self.checkpoints.push((name.clone()?, tree))?;
        }
        Ok(())
    }

    /// A machine with that history, and no open file.
    pub(crate) fn machine(&self, alloc: Global) -> Result<PlainMachine, Fault> {
        PlainMachine::restore(
            alloc,
            self.copy_versions(alloc)?,
            self.cursor,
            self.dropped,
            self.next,
            self.copy_checkpoints(alloc)?,
            self.limit,
        )
    }

    fn copy_versions(&self, alloc: Global) -> Result<Vec<Version<Tree>>, Fault> {
        let mut versions = Vec::new(alloc);
        for version in &self.versions {
            let root = version.root.clone()?;
            let serial = version.serial;
            versions.push(Version { serial, root })?;
        }
        Ok(versions)
    }

    fn copy_checkpoints(&self, alloc: Global) -> Result<BTreeMap<CpName, Tree>, Fault> {
        let mut checkpoints = BTreeMap::new(alloc);
        for (name, tree) in &self.checkpoints {
            checkpoints.insert(name.clone()?, tree.clone()?)?;
        }
        Ok(checkpoints)
    }
}

/// The tree below a root, read whole.
fn read_tree<S: Shows>(alloc: Global, system: &mut S, root: Root<'_>) -> Result<Tree, Fault> {
    let mut found = Found {
        tree: Tree::bare(alloc)?,
        waiting: Vec::new(alloc),
    };
    found.waiting.push(Vec::new(alloc))?;
    read_all(alloc, system, root, &mut found)?;
    Ok(found.tree)
}

/// What was read of a tree, and the directories of which it is not known what they hold.
#[derive(Drop)]
struct Found {
    tree: Tree,
    waiting: Vec<Vec<u8>>,
}

/// Reads the directories that wait, and those below them.
fn read_all<S: Shows>(
    alloc: Global,
    system: &mut S,
    root: Root<'_>,
    found: &mut Found,
) -> Result<(), Fault> {
    for _ in 0..MOST_DIRECTORIES {
        let Some(directory) = found.waiting.pop() else {
            return Ok(());
        };
        read_directory(alloc, system, root, &directory, found)?;
    }
    Err(Fault::Damaged)
}

/// Reads what a directory holds.
fn read_directory<S: Shows>(
    alloc: Global,
    system: &mut S,
    root: Root<'_>,
    directory: &[u8],
    found: &mut Found,
) -> Result<(), Fault> {
    let view = root.view()?;
    let path = path_of(alloc, directory)?;
    let reply = system.ask(alloc, &Call::List { view, path })?;
    match &reply {
        Reply::Names(names) => {
            read_entries(alloc, system, root, directory, names.as_slice(), found)
        }
        _ => Err(Fault::Damaged),
    }
}

fn read_entries<S: Shows>(
    alloc: Global,
    system: &mut S,
    root: Root<'_>,
    directory: &[u8],
    entries: &[(Name, bool)],
    found: &mut Found,
) -> Result<(), Fault> {
    if stat(alloc, system, root, directory)? != Stat::Dir(entries.len() as u64) {
        return Err(Fault::Damaged);
    }
    for (name, is_directory) in entries {
        let path = below(alloc, directory, name)?;
        read_entry(alloc, system, root, &path, *is_directory, found)?;
    }
    Ok(())
}

/// Reads what stands at a path.
fn read_entry<S: Shows>(
    alloc: Global,
    system: &mut S,
    root: Root<'_>,
    path: &[u8],
    is_directory: bool,
    found: &mut Found,
) -> Result<(), Fault> {
    match (stat(alloc, system, root, path)?, is_directory) {
        (Stat::Dir(_), true) => {
            found.tree.put(path_of(alloc, path)?, Node::dir())?;
            found.waiting.push(Vec::from_slice(alloc, path)?)?;
            Ok(())
        }
        (Stat::File(length), false) => {
            let bytes = read_file(alloc, system, root, path, length)?;
            found.tree.put(path_of(alloc, path)?, Node::file(bytes))?;
            Ok(())
        }
        _ => Err(Fault::Damaged),
    }
}

/// The bytes of a file that has so many.
fn read_file<S: Shows>(
    alloc: Global,
    system: &mut S,
    root: Root<'_>,
    file: &[u8],
    length: u64,
) -> Result<Vec<u8>, Fault> {
    let call = Call::ReadAt {
        view: root.view()?,
        path: path_of(alloc, file)?,
        offset: 0,
        count: u64::MAX,
    };
    let reply = system.ask(alloc, &call)?;
    match &reply {
        Reply::Bytes(bytes) if bytes.as_slice().len() as u64 == length => {
            Ok(Vec::from_slice(alloc, bytes.as_slice())?)
        }
        _ => Err(Fault::Damaged),
    }
}

fn stat<S: Shows>(
    alloc: Global,
    system: &mut S,
    root: Root<'_>,
    path: &[u8],
) -> Result<Stat, Fault> {
    let view = root.view()?;
    let path = path_of(alloc, path)?;
    match system.ask(alloc, &Call::Stat { view, path })? {
        Reply::Stat(stat) => Ok(stat),
        _ => Err(Fault::Damaged),
    }
}
