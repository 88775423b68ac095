//! Edits of a tree, as values.
use crate::file_body::Body;
use directory::Trail;
use fs_types::{NamedFile, Path};
use node_format::Place;

/// An edit of the tree of a root. What stands at its paths was looked up before, and beside each path
/// is its trail: the directories that the look-up went through. Paths and bytes may be borrowed for
/// longer than trails, as the path of an open file is.
#[derive(Clone, Copy)]
pub enum Edit<'p, 't> {
    /// Makes an empty directory where nothing stands.
    MakeDirectory {
        path: &'p Path,
        trail: &'t Trail,
    },
    /// Puts an empty file where nothing stands, or in the place of a file.
    PutEmptyFile {
        path: &'p Path,
        trail: &'t Trail,
    },
    /// Puts a file of these bytes where nothing stands, or in the place of a file.
    WriteFile {
        path: &'p Path,
        trail: &'t Trail,
        bytes: &'p [u8],
    },
    /// Puts those of these files that change in the directory at a path, which begins in this block: each
    /// where nothing stands, or in the place of a file.
    WriteFiles {
        directory: &'p Path,
        trail: &'t Trail,
        block: u32,
        files: &'p [NamedFile],
        changes: &'t [bool],
    },
    /// Writes bytes, at least one, from `offset` on over those of a file, which has this body.
    Overwrite {
        path: &'p Path,
        trail: &'t Trail,
        body: Body,
        offset: u32,
        bytes: &'p [u8],
    },
    /// Makes the length of a file this, which has this body.
    SetLength {
        path: &'p Path,
        trail: &'t Trail,
        body: Body,
        length: u32,
    },
    /// Takes out a file, or a directory without entries.
    Remove {
        path: &'p Path,
        trail: &'t Trail,
    },
    /// Moves what stands at one path to another, in place of what stands there.
    Move {
        old: &'p Path,
        old_trail: &'t Trail,
        new: &'p Path,
        new_trail: &'t Trail,
        place: Place,
    },
    /// Makes the tree that of another root, which is kept.
    Restore {
        root: u32,
    },
}
