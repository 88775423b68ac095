//! A folder of the host that is made whole.
use super::folder_tree::FolderTree;
use file_replacement::{folder_of, refuse_standing};
use host_interface::new_name;
use std::alloc::Global;
use std::fs::{File, OpenOptions};
use std::io::{ErrorKind, Write};
use std::rt::Files;
use std::{fs, io};

/// A folder that is begun: all of it is made under a name beside its own, and it is given that at the end.
#[derive(Drop)]
pub(super) struct NewFolder {
    name: String,
    path: String,
    new_path: String,
    tree: FolderTree,
    /// The ways to the folders in it that were made: each is brought to the disk at the end.
    folders: Vec<String>,
}

impl NewFolder {
    /// Makes the new folder. Refused where something stands at the name, and where something stands at that of
    /// the new folder, as what a program left that was killed: it is nobody's to remove but its owner's.
    pub(super) fn begin<R: Files<File = File>>(
        rt: &R,
        alloc: Global,
        name: &str,
    ) -> io::Result<NewFolder> {
        let path = String::from_str(alloc, name.trim_end_matches('/'))?;
        if path.is_empty() {
            return Err(io::Error::from(ErrorKind::AlreadyExists));
        }
        refuse_standing(rt, path.as_str())?;
        let new_path = new_name(alloc, path.as_str())?;
        let name = String::from_str(alloc, name)?;
        let tree = make_tree(rt, alloc, new_path.as_str())?;
        Ok(NewFolder {
            name,
            path,
            new_path,
            tree,
            folders: Vec::new(alloc),
        })
    }

    /// Whether it is that of a name.
    pub(super) fn is_named(&self, name: &str) -> bool {
        self.name.as_str() == name
    }

    /// Makes a folder in it.
    pub(super) fn make_folder<R: Files<File = File>>(
        &mut self,
        rt: &R,
        alloc: Global,
        way: &str,
    ) -> io::Result<()> {
        let path = self.tree.path_to(rt, alloc, way)?;
        fs::create_dir(rt, path.as_str())?;
        self.folders.push(String::from_str(alloc, way)?)?;
        Ok(())
    }

    /// Makes a file in it, and brings its bytes to the disk.
    pub(super) fn make_file<R: Files<File = File>>(
        &mut self,
        rt: &R,
        alloc: Global,
        way: &str,
        bytes: &[u8],
    ) -> io::Result<()> {
        let path = self.tree.path_to(rt, alloc, way)?;
        let mut options = OpenOptions::new();
        options.write(true).create_new(true);
        let mut file = options.open(rt, path.as_str())?;
        file.write_all(bytes)?;
        file.sync_all()
    }

    /// Brings all of it to the disk, gives it its name, and gives the folder that it stands in, which is not
    /// yet brought to the disk. Refused where something stands at the name by then, or where something else
    /// stood where it was made.
    pub(super) fn finish<R: Files<File = File>>(
        &mut self,
        rt: &R,
        alloc: Global,
    ) -> io::Result<File> {
        for way in &self.folders {
            self.tree.sync(rt, alloc, way.as_str())?;
        }
        self.tree.sync(rt, alloc, "")?;
        let folder = fs::open(rt, folder_of(self.path.as_str()))?;
        refuse_standing(rt, self.path.as_str())?;
        if !self.stands(rt) {
            return Err(io::Error::from(ErrorKind::NotFound));
        }
        fs::rename(rt, self.new_path.as_str(), self.path.as_str())?;
        if !self.tree.stands_at(rt, self.path.as_str()) {
            return Err(io::Error::from(ErrorKind::NotFound));
        }
        Ok(folder)
    }

    /// Whether it stands where it was made.
    fn stands<R: Files>(&self, rt: &R) -> bool {
        self.tree.stands_at(rt, self.new_path.as_str())
    }

    /// Removes what was made, as far as the host lets it go, unless something else stands there by now.
    pub(super) fn remove<R: Files>(self, rt: &R, alloc: Global) {
        if self.stands(rt) {
            let _ = rt.remove_dir_all(alloc, self.new_path.as_str());
        }
    }
}

/// Makes a folder where there is none, and opens it. Where it cannot be opened it is removed again.
fn make_tree<R: Files<File = File>>(rt: &R, alloc: Global, path: &str) -> io::Result<FolderTree> {
    fs::create_dir(rt, path)?;
    match FolderTree::open(rt, alloc, path) {
        Ok(tree) => Ok(tree),
        Err(error) => {
            let _ = fs::remove_dir(rt, path);
            Err(error)
        }
    }
}
