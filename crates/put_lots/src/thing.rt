//! What is put at a path of an image.
ghost use Rattle.std.specs.Prelude.{◌≡◌, IfOk};
ghost use Rattle.put_lots.specs.Things.{thing_events};

use fs_types::{Bytes, Call, Event, NamedFile, Path, Sequence, View};
use std::alloc::{AllocError, Global};

/// What is put at a path.
#[derive(Debug, Drop)]
pub enum Thing {
    /// A directory, which may be there already.
    Directory(Path),
    /// A file of these bytes, in the place of one that is there.
    File(Path, Bytes),
    /// Files of a directory, each in the place of one that is there.
    Files(Path, Sequence<NamedFile>),
}

/// The events that put a thing.
pub fn events_of(alloc: Global, thing: Thing) -> Result<Vec<Event>, AllocError>
    ensures { IfOk result (λ events. events.items ≡ thing_events thing) }
{
    match thing {
        Thing::Directory(path) => {
            let made = Call::Mkdir {
                path: path.clone()?,
            };
            let looked = Call::Stat {
                view: View::Present,
                path,
            };
            Ok(vec![in alloc; Event::Call(made), Event::Call(looked)]?)
        }
        Thing::File(path, bytes) => {
            let written = Call::WriteFile { path, bytes };
            Ok(vec![in alloc; Event::Call(written)]?)
        }
        Thing::Files(directory, files) => {
            let written = Call::WriteFiles { directory, files };
            Ok(vec![in alloc; Event::Call(written)]?)
        }
    }
}
