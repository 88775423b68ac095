//! What stands at a name of the host and below it.
use super::folder_tree::FolderTree;
use super::gathered::Gathered;
use file_replacement::{Identity, Replaced, open_unlinked};
use fs_types::{MAX_ENTRIES, MAX_NAMES};
use host_interface::{Source, SourceKind};
use std::alloc::{AllocError, Global};
use std::fs::{File, Metadata};
use std::io::ErrorKind;
use std::rt::Files;
use std::{fs, io};

/// What stands at a name and below it, folder by folder, and how it is read; the names in a folder are in
/// byte order. No link is followed, and of a folder too deep to be put no more is told. What the put takes
/// away is told as the image's own.
pub(super) fn gather<R: Files<File = File> + AllocGlobal>(
    rt: &R,
    alloc: Global,
    name: &str,
    own: Replaced,
) -> Result<(Vec<Source>, Gathered), AllocError> {
    let mut sources = Vec::new(alloc);
    let kind = kind_at(rt, name, own);
    sources.push(Source {
        name: String::from_str(alloc, name)?,
        way: String::from_str(alloc, "/")?,
        kind,
    })?;
    match kind {
        SourceKind::Folder => gather_folder(rt, alloc, name, own, sources),
        SourceKind::File(_) => {
            let file = open_unlinked(rt, name).ok();
            let name = String::from_str(alloc, name)?;
            Ok((sources, Gathered::File(name, file)))
        }
        _ => Ok((sources, Gathered::Nothing)),
    }
}

/// What stands in a folder, which is the one source so far.
fn gather_folder<R: Files<File = File> + AllocGlobal>(
    rt: &R,
    alloc: Global,
    name: &str,
    own: Replaced,
    sources: Vec<Source>,
) -> Result<(Vec<Source>, Gathered), AllocError> {
    let mut sources = sources;
    let mut tree = match FolderTree::open(rt, alloc, name) {
        Ok(tree) => tree,
        Err(error) if error.kind() == ErrorKind::OutOfMemory => return Err(AllocError),
        Err(_) => {
            set_kind(&mut sources, 0, kind_unlisted(rt, name, own));
            return Ok((sources, Gathered::Nothing));
        }
    };
    for at in 0..usize::MAX {
        let Some(folder) = sources.get(at) else {
            break;
        };
        if !is_opened(folder) {
            continue;
        }
        let entries = Entries::of(rt, alloc, &mut tree, folder, own)?;
        entries.append_to(at, &mut sources)?;
    }
    let base = String::from_str(alloc, name.trim_end_matches('/'))?;
    Ok((sources, Gathered::Folder(base, tree)))
}

/// Whether a source is a folder whose entries are told.
fn is_opened(source: &Source) -> bool {
    source.kind == SourceKind::Folder && source.way.matches('/').count() <= MAX_NAMES
}

fn set_kind(sources: &mut Vec<Source>, at: usize, kind: SourceKind) {
    if let Some(source) = sources.get_mut(at) {
        source.kind = kind;
    }
}

/// What is found in a folder.
#[derive(Drop)]
enum Entries {
    /// What stands in it.
    Sources(Vec<Source>),
    /// What the folder is told as, of which no more is told.
    Unlisted(SourceKind),
}

impl Entries {
    fn of<R: Files<File = File> + AllocGlobal>(
        rt: &R,
        alloc: Global,
        tree: &mut FolderTree,
        folder: &Source,
        own: Replaced,
    ) -> Result<Entries, AllocError> {
        match sources_in(rt, alloc, tree, folder, own) {
            Ok(entries) => Ok(entries),
            Err(error) if error.kind() == ErrorKind::OutOfMemory => Err(AllocError),
            Err(_) => Ok(Entries::Unlisted(kind_unlisted(rt, folder.name.as_str(), own))),
        }
    }

    /// Appends them to all sources, of which the folder is the one at this place.
    fn append_to(self, at: usize, sources: &mut Vec<Source>) -> Result<(), AllocError> {
        match self {
            Entries::Sources(entries) => {
                for source in entries {
                    sources.push(source)?;
                }
            }
            Entries::Unlisted(kind) => set_kind(sources, at, kind),
        }
        Ok(())
    }
}

/// What stands in a folder; or that it has too much.
fn sources_in<R: Files<File = File> + AllocGlobal>(
    rt: &R,
    alloc: Global,
    tree: &mut FolderTree,
    folder: &Source,
    own: Replaced,
) -> io::Result<Entries> {
    let names = tree.list(rt, alloc, folder.way.as_str())?;
    if names.len() > MAX_ENTRIES {
        return Ok(Entries::Unlisted(SourceKind::Crowded));
    }
    let mut sources = Vec::with_capacity(alloc, names.len())?;
    for last in names {
        let way = join(alloc, folder.way.as_str(), last.as_str())?;
        let path = tree.path_to(rt, alloc, way.as_str())?;
        let kind = kind_at(rt, path.as_str(), own);
        let name = join(alloc, folder.name.as_str(), last.as_str())?;
        sources.push(Source { name, way, kind })?;
    }
    Ok(Entries::Sources(sources))
}

/// The name of an entry of a folder.
fn join(alloc: Global, folder: &str, name: &str) -> Result<String, AllocError> {
    if folder.ends_with('/') {
        return format!(in alloc; "{folder}{name}");
    }
    format!(in alloc; "{folder}/{name}")
}

/// What a folder is told as that could not be listed: what stands at its name by now, if that is no folder.
fn kind_unlisted<R: Files>(rt: &R, name: &str, own: Replaced) -> SourceKind {
    match kind_at(rt, name, own) {
        SourceKind::Folder | SourceKind::File(_) => SourceKind::Unreadable,
        kind => kind,
    }
}

fn kind_at<R: Files>(rt: &R, name: &str, own: Replaced) -> SourceKind {
    match fs::symlink_metadata(rt, name) {
        Ok(found) if own.has(Identity::of(&found)) => SourceKind::Image,
        Ok(found) => kind_of(&found),
        Err(_) => SourceKind::Unreadable,
    }
}

fn kind_of(found: &Metadata) -> SourceKind {
    if found.is_symlink() {
        SourceKind::Link
    } else if found.is_dir() {
        SourceKind::Folder
    } else if found.is_file() {
        SourceKind::File(found.len())
    } else {
        SourceKind::Special
    }
}
