//! What stands at names of the host.
use std::alloc::{AllocError, Global};

/// What stands at a name of the host.
#[derive(Clone, Copy, Debug, PartialEq, Eq)]
pub enum SourceKind {
    /// A folder. What stands in it comes after it.
    Folder,
    /// A plain file, with its length in bytes.
    File(u64),
    /// A folder of which no more is told, since it has more entries than a directory may have.
    Crowded,
    /// A link.
    Link,
    /// Anything else, as a fifo or a device.
    Special,
    /// The image into which all is put, or what stands where its new file is made.
    Image,
    /// It is missing, or may not be looked at.
    Unreadable,
}

/// A name of the host, at or below one that was asked for.
#[derive(Debug, Drop)]
pub struct Source {
    /// The name.
    pub name: String,
    /// The path to it from the name that was asked for, spelled as a path is: `/` for that name itself.
    pub way: String,
    /// What stands there.
    pub kind: SourceKind,
}

/// What stands at names of the host.
pub trait Sources {
    ghost use Rattle.std.specs.Prelude.{◌≡◌, None, IfSome, IfOk, map};
    ghost use Rattle.host_interface.specs.Sources.{Gathered, source_found};

    // What stands at a name and below it for an image, where it is known.
    ghost gathered: { Self → Gathered } = { λ _ _ _. None };

    /// What stands at a name and below it, where all of it is to be put into an image: each folder
    /// comes before what stands in it. No link is followed. The only error is want of memory.
    fn gather(&self, alloc: Global, name: &str, image: &str) -> Result<Vec<Source>, AllocError>
        ensures { IfOk result (λ sources. IfSome (gathered self.now name.now image.now) (λ all. map source_found sources.items ≡ all)) };
}
