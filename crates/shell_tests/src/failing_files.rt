//! The program on files that fail in ways in which those of the host seldom do.
use crate::flat_part::FlatPart;
use host_interface::{
    Channels, FileFault, Folders, ImageFiles, Parts, Source, SourceKind, Sources,
};
use program_calls::{Wanted, first_other, fresh_image};
use std::alloc::{AllocError, Global};
use std::process::Abort;
use std::test::Fail;

/// Files of which only `x` can be read and replaced. What a name tells of another file is not what comes of
/// it.
#[derive(Drop)]
pub(crate) struct FailingFiles {
    /// The bytes of `x`.
    pub(crate) bytes: Vec<u8>,
}

impl ImageFiles for FailingFiles {
    fn claim(&mut self, _alloc: Global, _name: &str) -> Result<(), FileFault> {
        Ok(())
    }

    fn read(&self, alloc: Global, name: &str) -> Result<Vec<u8>, FileFault> {
        if name != "x" {
            return Err(FileFault::Failed);
        }
        Vec::from_slice(alloc, &self.bytes).map_err(|_| FileFault::Memory)
    }

    fn read_source(&self, alloc: Global, name: &str) -> Result<Vec<u8>, FileFault> {
        self.read(alloc, name)
    }

    fn takes_away(&self, _alloc: Global, _name: &str, _other: &str) -> Result<bool, FileFault> {
        Ok(false)
    }

    fn replace(&mut self, alloc: Global, name: &str, bytes: &[u8]) -> Result<(), FileFault> {
        if name != "x" {
            return Err(FileFault::Failed);
        }
        self.bytes = Vec::from_slice(alloc, bytes).map_err(|_| FileFault::Memory)?;
        Ok(())
    }
}

/// No folder is made; for `wide` there is no memory.
impl Folders for FailingFiles {
    fn begin_folder(&mut self, _alloc: Global, name: &str) -> Result<(), FileFault> {
        match name {
            "wide" => Err(FileFault::Memory),
            _ => Err(FileFault::Failed),
        }
    }

    fn make_folder(&mut self, _alloc: Global, _name: &str, _way: &str) -> Result<(), FileFault> {
        Err(FileFault::Failed)
    }

    fn make_file(
        &mut self,
        _alloc: Global,
        _name: &str,
        _way: &str,
        _bytes: &[u8],
    ) -> Result<(), FileFault> {
        Err(FileFault::Failed)
    }

    fn finish_folder(&mut self, _alloc: Global, _name: &str) -> Result<(), FileFault> {
        Err(FileFault::Failed)
    }

    fn give_up_folder(&mut self, _alloc: Global, _name: &str) {}
}

/// `lost` is gone after it was looked at, and nothing tells why another cannot be read.
impl Sources for FailingFiles {
    fn gather(&self, alloc: Global, name: &str, _image: &str) -> Result<Vec<Source>, AllocError> {
        let kind = match name {
            "folder" => SourceKind::Folder,
            "lost" => SourceKind::File(1),
            _ => SourceKind::Unreadable,
        };
        let mut sources = Vec::new(alloc);
        sources.push(Source {
            name: String::from_str(alloc, name)?,
            way: String::from_str(alloc, "/")?,
            kind,
        })?;
        Ok(sources)
    }
}

/// What is heard of a driver: eight bytes, which are no image.
const HEARD: &[u8] = b"\x08\0\0\0\0\0\0\0UFFSIMG2";

/// A driver is heard under `heard`, and is given orders under `given`.
impl Channels for FailingFiles {
    ghost use Rattle.std.specs.Prelude.{◌∷◌, Some, codes};

    type Incoming = &'static [u8];

    type Outgoing = Vec<u8>;

    ghost written = { λ _ _. Some (8 ∷ 0 ∷ 0 ∷ 0 ∷ 0 ∷ 0 ∷ 0 ∷ 0 ∷ codes "UFFSIMG2") };

    fn open_incoming(&self, name: &str) -> Result<&'static [u8], FileFault> {
        match name {
            "heard" => Ok(HEARD),
            _ => Err(FileFault::Failed),
        }
    }

    fn open_outgoing(&self, alloc: Global, name: &str) -> Result<Vec<u8>, FileFault> {
        match name {
            "given" => Ok(Vec::new(alloc)),
            _ => Err(FileFault::Failed),
        }
    }
}

/// A part is opened as a copy of `x`.
impl Parts for FailingFiles {
    ghost use Rattle.std.specs.Prelude.{Some};

    type Part = FlatPart;

    ghost placed = { λ files _. Some files.bytes.items };

    fn open_part(&self, alloc: Global, name: &str) -> Result<FlatPart, FileFault> {
        if name != "x" {
            return Err(FileFault::Failed);
        }
        let bytes = Vec::from_slice(alloc, &self.bytes).map_err(|_| FileFault::Memory)?;
        Ok(FlatPart { bytes })
    }
}

/// Asserts what calls of the program give, one after the other.
fn assert_calls<R: Abort>(
    rt: &R,
    files: &mut FailingFiles,
    alloc: Global,
    calls: &[Wanted<'_>],
) -> Result<(), Fail> {
    let other = first_other(files, alloc, calls)?;
    assert!(rt; other.is_none(), "{other:?}");
    Ok(())
}

/// Asserts that files which cannot be read are told, and the image stays.
fn assert_unread<R: Abort>(rt: &R, alloc: Global) -> Result<(), Fail> {
    let mut files = FailingFiles {
        bytes: fresh_image(alloc)?,
    };
    let unread = (1, "", "uffs: cannot read missing\n");
    let lost = (1, "", "uffs: cannot read lost\n");
    let puts: [Wanted<'_>; 3] = [
        (&["put", "x", "missing", "/f"], "", unread),
        (&["put", "x", "lost", "/f"], "", lost),
        (&["put", "missing", "folder", "/f"], "", unread),
    ];
    assert_calls(rt, &mut files, alloc, &puts)?;
    assert_eq!(rt; files.bytes.as_slice(), fresh_image(alloc)?.as_slice());
    Ok(())
}

/// Asserts that folders and files which cannot be made are told.
fn assert_unwritten<R: Abort>(rt: &R, alloc: Global) -> Result<(), Fail> {
    let mut files = FailingFiles {
        bytes: fresh_image(alloc)?,
    };
    let lines = "mkdir /d\nopen /d/f 6\npwrite 0 0 616263\nclose 0\nsync\n";
    let unwritten = (1, "", "uffs: cannot write y\n");
    let gets: [Wanted<'_>; 4] = [
        (&["run", "x"], lines, (0, "ok\nfd 0\nwrote 3\nok\nok\n", "")),
        (&["get", "x", "/d/f", "y"], "", unwritten),
        (&["get", "x", "/d", "y"], "", unwritten),
        (
            &["get", "x", "/d", "wide"],
            "",
            (1, "", "uffs: ENOMEM 25\n"),
        ),
    ];
    assert_calls(rt, &mut files, alloc, &gets)
}

/// Asserts that a part is made and served, and that a driver which tells no image is refused.
fn assert_served<R: Abort>(rt: &R, alloc: Global) -> Result<(), Fail> {
    let mut files = FailingFiles {
        bytes: Vec::new(alloc),
    };
    let made = "log next 2 dropped 0 versions *1 checkpoints\n";
    let lines = "mkdir /a\nsync\nls /\nfault read 1\n";
    let served = "ok\nok\nentries 1 a/\nerr SYNTAX\n";
    let no_image = (3, "", "uffs: image NotImage\n");
    let calls: [Wanted<'_>; 6] = [
        (&["format", "--part", "x"], "", (0, "", "")),
        (&["serve", "--part", "x"], "log\n", (0, made, "")),
        (&["serve", "--part", "x"], lines, (0, served, "")),
        (&["serve", "heard", "given"], "ls /\n", no_image),
        (
            &["serve", "x", "given"],
            "",
            (1, "", "uffs: cannot read x\n"),
        ),
        (
            &["serve", "heard", "x"],
            "",
            (1, "", "uffs: cannot write x\n"),
        ),
    ];
    assert_calls(rt, &mut files, alloc, &calls)
}

#[test]
fn files_that_fail_are_told(rt: HostRuntime) -> Result<(), Fail> {
    let alloc = rt.alloc();
    assert_unread(&rt, alloc)?;
    assert_unwritten(&rt, alloc)?;
    assert_served(&rt, alloc)
}
