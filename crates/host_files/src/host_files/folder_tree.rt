//! A folder of the host with the folders in it, as they are opened.
use super::opened_folder::OpenedFolder;
use std::alloc::Global;
use std::fs::File;
use std::io;
use std::rt::Files;

/// A folder that is open, and the one in it that was opened last. A way leads from the first to what stands
/// in it, as `/a/b`; to itself where it has no name. No link is followed on it.
#[derive(Drop)]
pub(super) struct FolderTree {
    root: OpenedFolder,
    last: OpenedFolder,
    last_way: String,
}

impl FolderTree {
    /// Opens the folder of a name, as [`OpenedFolder::open`] does.
    pub(super) fn open<R: Files<File = File>>(
        rt: &R,
        alloc: Global,
        name: &str,
    ) -> io::Result<FolderTree> {
        let root = OpenedFolder::open(rt, alloc, name)?;
        let last = root.open_below(rt, alloc, "")?;
        let last_way = String::new(alloc);
        Ok(FolderTree {
            root,
            last,
            last_way,
        })
    }

    /// The name by which the host reaches what stands at a way, until another folder is opened.
    pub(super) fn path_to<R: Files<File = File>>(
        &mut self,
        rt: &R,
        alloc: Global,
        way: &str,
    ) -> io::Result<String> {
        match way.rsplit_once('/') {
            Some((above, name)) => {
                self.open_last(rt, alloc, above)?;
                self.last.path_to(name)
            }
            None => self.root.path_to(way),
        }
    }

    /// The names in the folder at a way, as [`OpenedFolder::list`] gives them.
    pub(super) fn list<R: Files<File = File> + AllocGlobal>(
        &mut self,
        rt: &R,
        alloc: Global,
        way: &str,
    ) -> io::Result<Vec<String>> {
        self.open_last(rt, alloc, way)?;
        self.last.list(rt, alloc)
    }

    /// Brings the entries of the folder at a way to the disk.
    pub(super) fn sync<R: Files<File = File>>(
        &mut self,
        rt: &R,
        alloc: Global,
        way: &str,
    ) -> io::Result<()> {
        self.open_last(rt, alloc, way)?;
        self.last.sync()
    }

    /// Whether the first folder is what stands at a name.
    pub(super) fn stands_at<R: Files>(&self, rt: &R, name: &str) -> bool {
        self.root.stands_at(rt, name)
    }

    /// Opens the folder at a way, unless it was the last.
    fn open_last<R: Files<File = File>>(
        &mut self,
        rt: &R,
        alloc: Global,
        way: &str,
    ) -> io::Result<()> {
        let way = if way == "/" { "" } else { way };
        if self.last_way.as_str() != way {
            self.last = self.root.open_below(rt, alloc, way)?;
            self.last_way = String::from_str(alloc, way)?;
        }
        Ok(())
    }
}
