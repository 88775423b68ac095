//! Streams that join the program to another one.
use crate::image_files::FileFault;
use std::alloc::Global;
use std::io::{Read, Write};

/// Streams that join the program to another one, by their names: fifos, or `/dev/fd/N` of pipes.
pub trait Channels {
    ghost use Rattle.std.specs.Prelude.{◌≡◌, None, Some, IfSome, IfOk, []};
    ghost use Rattle.host_interface.specs.Streams.{Written};

    /// What another program writes to.
    type Incoming: Read + Drop;

    /// What another program reads from.
    type Outgoing: Write + Drop;

    // What another program writes under a name, where it is known.
    ghost written: { Self → Written } = { λ _ _. None };

    /// Opens a name for reading. A fifo waits until another program opens it for writing.
    fn open_incoming(&self, name: &str) -> Result<Self::Incoming, FileFault>
        ensures { IfOk result (λ stream. IfSome (written self.now name.now) (λ all. Self.Incoming.remaining stream ≡ Some all)) };

    /// Opens a name for writing. A fifo waits until another program opens it for reading. No file is
    /// made, and one that is there keeps what is not written over.
    fn open_outgoing(&self, alloc: Global, name: &str) -> Result<Self::Outgoing, FileFault>
        ensures unused { IfOk result (λ stream. IfSome (Self.Outgoing.contents stream) (λ all. all ≡ [])) };
}
