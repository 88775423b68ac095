//! What a tree of a system shows.
use crate::shows::{Extent, Shows};
use fs_types::{Answer, Call, CpName, Fault, Name, Path, Reply, View};
use script::{LineAnswer, print_answer};
use std::alloc::{AllocError, Global};

/// Whose tree is shown.
#[derive(Clone, Copy)]
pub enum Root<'a> {
    /// That which calls work on: the open group's, else the present one.
    Working,
    /// That of the version with this serial.
    Serial(u64),
    /// That of the checkpoint with this name.
    Checkpoint(&'a CpName),
}

impl Root<'_> {
    pub fn view(self) -> Result<View, AllocError> {
        match self {
            Root::Working => Ok(View::Present),
            Root::Serial(serial) => Ok(View::Serial(serial)),
            Root::Checkpoint(name) => Ok(View::Checkpoint(name.clone()?)),
        }
    }
}

/// A system whose trees are shown, how much of each, and what they show.
#[derive(Drop)]
pub struct Walk<'a, S> {
    pub system: &'a mut S,
    pub extent: Extent,
    pub out: &'a mut Vec<u8>,
}

/// Appends what each path of a tree shows, from the root on.
pub fn show_tree<S: Shows>(
    alloc: Global,
    walk: &mut Walk<'_, S>,
    root: Root<'_>,
) -> Result<(), Fault> {
    let mut waiting: Vec<Vec<u8>> = Vec::new(alloc);
    waiting.push(Vec::new(alloc))?;
    for _ in 0..walk.extent.directories {
        let Some(directory) = waiting.pop() else {
            return Ok(());
        };
        show_directory(alloc, walk, root, &directory, &mut waiting)?;
    }
    Ok(())
}

/// Appends the names in a directory and the bytes of its files; its directories wait.
fn show_directory<S: Shows>(
    alloc: Global,
    walk: &mut Walk<'_, S>,
    root: Root<'_>,
    directory: &[u8],
    waiting: &mut Vec<Vec<u8>>,
) -> Result<(), Fault> {
    walk.out.extend_from_slice(directory)?;
    walk.out.push(b' ')?;
    let view = root.view()?;
    let path = path_of(alloc, directory)?;
    let reply = walk.system.ask(alloc, &Call::List { view, path })?;
    let answer = LineAnswer::Told(Answer::Done(reply));
    print_answer(walk.out, &answer)?;
    tell_entries(alloc, walk, root, directory)?;
    match &answer {
        LineAnswer::Told(Answer::Done(Reply::Names(names))) => {
            show_entries(alloc, walk, root, directory, names.as_slice(), waiting)
        }
        _ => Err(Fault::Invalid),
    }
}

/// Appends what stands at each entry of a directory, as `entries` tells it.
fn tell_entries<S: Shows>(
    alloc: Global,
    walk: &mut Walk<'_, S>,
    root: Root<'_>,
    directory: &[u8],
) -> Result<(), Fault> {
    let call = Call::Entries {
        view: root.view()?,
        path: path_of(alloc, directory)?,
        from: None,
        most: u64::MAX,
    };
    let answer = LineAnswer::Told(Answer::Done(walk.system.ask(alloc, &call)?));
    print_answer(walk.out, &answer)?;
    Ok(())
}

/// Appends the bytes of the files among the entries of a directory; directories wait.
fn show_entries<S: Shows>(
    alloc: Global,
    walk: &mut Walk<'_, S>,
    root: Root<'_>,
    directory: &[u8],
    entries: &[(Name, bool)],
    waiting: &mut Vec<Vec<u8>>,
) -> Result<(), Fault> {
    for (name, is_directory) in entries {
        let path = below(alloc, directory, name)?;
        if *is_directory {
            waiting.push(path)?;
        } else {
            show_file(alloc, walk, root, &path)?;
        }
    }
    Ok(())
}

/// Appends the bytes of a file.
fn show_file<S: Shows>(
    alloc: Global,
    walk: &mut Walk<'_, S>,
    root: Root<'_>,
    file: &[u8],
) -> Result<(), Fault> {
    let call = Call::ReadAt {
        view: root.view()?,
        path: path_of(alloc, file)?,
        offset: 0,
        count: walk.extent.bytes,
    };
    let answer = LineAnswer::Told(Answer::Done(walk.system.ask(alloc, &call)?));
    print_answer(walk.out, &answer)?;
    Ok(())
}

/// The spelling of an entry of a directory. That of the root is empty here.
pub fn below(alloc: Global, directory: &[u8], name: &Name) -> Result<Vec<u8>, AllocError> {
    let mut path = Vec::new(alloc);
    path.extend_from_slice(directory)?;
    path.push(b'/')?;
    path.extend_from_slice(name.as_bytes())?;
    Ok(path)
}

/// The path of a spelling. That of the root is empty here.
pub fn path_of(alloc: Global, spelling: &[u8]) -> Result<Path, Fault> {
    if spelling.is_empty() {
        return Ok(Path::root(alloc));
    }
    Path::parse(alloc, spelling)
}
