//! How what was gathered is read.
use super::folder_tree::FolderTree;
use file_replacement::open_unlinked;
use std::alloc::Global;
use std::fs::File;
use std::io;
use std::rt::Files;

/// What was gathered last, as it is open.
#[derive(Drop)]
pub(super) enum Gathered {
    /// Neither a folder nor a plain file.
    Nothing,
    /// The plain file of a name, until it is read.
    File(String, Option<File>),
    /// The folder of a name, with which those of all that stands in it begin: they go on with a way.
    Folder(String, FolderTree),
}

impl Gathered {
    /// Opens the plain file of a name, which is no link, to be read. Where it was gathered below a folder no
    /// link is followed on the way from that.
    pub(super) fn open_source<R: Files<File = File>>(
        &mut self,
        rt: &R,
        alloc: Global,
        name: &str,
    ) -> io::Result<File> {
        match self {
            Gathered::File(own, file) if own.as_str() == name => match file.take() {
                Some(file) => Ok(file),
                None => open_unlinked(rt, name),
            },
            Gathered::Folder(base, tree) => match way_from(base.as_str(), name) {
                Some(way) => {
                    let path = tree.path_to(rt, alloc, way)?;
                    open_unlinked(rt, path.as_str())
                }
                None => open_unlinked(rt, name),
            },
            _ => open_unlinked(rt, name),
        }
    }
}

/// The way with which a name goes on after that of a folder.
fn way_from<'a>(folder: &str, name: &'a str) -> Option<&'a str> {
    match name.strip_prefix(folder) {
        Some(way) if way.starts_with('/') => Some(way),
        _ => None,
    }
}
