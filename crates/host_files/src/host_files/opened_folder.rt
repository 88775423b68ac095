//! Folders of the host that are open.
use file_replacement::{Identity, refuse_another};
use fs_types::MAX_ENTRIES;
use std::alloc::Global;
use std::fs::File;
use std::io::ErrorKind;
use std::os::fd::AsRawFd;
use std::rt::Files;
use std::{fs, io};

/// A folder that is open. What is done by its path is done in this folder, whatever its name leads to by
/// then, where the host gives open files names; elsewhere its path is its name.
#[derive(Drop)]
pub(super) struct OpenedFolder {
    file: File,
    identity: Identity,
    /// The name by which it is reached, with a slash at its end.
    path: String,
}

impl OpenedFolder {
    /// Opens the folder of a name, and waits for no fifo. Refused where the name is a link, or leads to
    /// another folder as it is opened.
    pub(super) fn open<R: Files<File = File>>(
        rt: &R,
        alloc: Global,
        name: &str,
    ) -> io::Result<OpenedFolder> {
        let looked = Identity::of(&fs::symlink_metadata(rt, name)?);
        let mut path = String::from_str(alloc, name)?;
        if !path.ends_with('/') {
            path.push('/')?;
        }
        let file = fs::open(rt, path.as_str())?;
        let found = Identity::of(&file.metadata()?);
        let file = refuse_another(file, found, looked)?;
        reached(rt, alloc, file, found, path)
    }

    /// Opens the folder that a way leads to, as `/a/b`, name by name.
    pub(super) fn open_below<R: Files<File = File>>(
        &self,
        rt: &R,
        alloc: Global,
        way: &str,
    ) -> io::Result<OpenedFolder> {
        let file = self.file.try_clone()?;
        let mut folder = reached(rt, alloc, file, self.identity, self.path.clone()?)?;
        for name in way.split('/') {
            if !name.is_empty() {
                let path = folder.path_to(name)?;
                folder = OpenedFolder::open(rt, alloc, path.as_str())?;
            }
        }
        Ok(folder)
    }

    /// The name by which the host reaches an entry.
    pub(super) fn path_to(&self, name: &str) -> io::Result<String> {
        let mut path = self.path.clone()?;
        path.push_str(name)?;
        Ok(path)
    }

    /// The names of its entries in byte order, or one more than a directory may have of them. Refused where
    /// its path leads to another folder afterwards.
    pub(super) fn list<R: Files<File = File> + AllocGlobal>(
        &self,
        rt: &R,
        alloc: Global,
    ) -> io::Result<Vec<String>> {
        let mut names = Vec::new(alloc);
        for entry in fs::read_dir(&rt, self.path.as_str())? {
            let entry = entry?;
            names.push(String::from_str(alloc, entry.file_name())?)?;
            if names.len() > MAX_ENTRIES {
                break;
            }
        }
        if !leads_to(rt, self.path.as_str(), self.identity) {
            return Err(io::Error::from(ErrorKind::InvalidInput));
        }
        names.sort()?;
        Ok(names)
    }

    /// Brings its entries to the disk.
    pub(super) fn sync(&self) -> io::Result<()> {
        self.file.sync_all()
    }

    /// Whether it is what stands at a name, and no link does.
    pub(super) fn stands_at<R: Files>(&self, rt: &R, name: &str) -> bool {
        match fs::symlink_metadata(rt, name) {
            Ok(found) => Identity::of(&found) == self.identity,
            Err(_) => false,
        }
    }
}

/// An open folder, with the name by which the host reaches it: that of the open file, or its own where the
/// host gives these none.
fn reached<R: Files<File = File>>(
    rt: &R,
    alloc: Global,
    file: File,
    identity: Identity,
    name: String,
) -> io::Result<OpenedFolder> {
    let number = file.as_raw_fd();
    let handle = format!(in alloc; "/proc/self/fd/{number}/")?;
    let path = if leads_to(rt, handle.as_str(), identity) {
        handle
    } else {
        name
    };
    Ok(OpenedFolder {
        file,
        identity,
        path,
    })
}

/// Whether a name leads to a file, through links.
fn leads_to<R: Files>(rt: &R, name: &str, identity: Identity) -> bool {
    match fs::metadata(rt, name) {
        Ok(found) => Identity::of(&found) == identity,
        Err(_) => false,
    }
}
