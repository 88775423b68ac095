//! What stands at a path of a tree.
ghost use Rattle.std.specs.Prelude.{◌≡◌, Bool, Some, None, IfOk, MatchOption};
ghost use Rattle.plain_trees.specs.Contents.{is_dir};
ghost use Rattle.plain_trees.specs.Trees.{bytes_of};
ghost use Rattle.fs_types.specs.declared.call.Stat.{Stat};

use std::alloc::{AllocError, Global};
use std::marker::Model;

/// A directory, or a file with its bytes.
#[derive(Drop)]
pub struct Node {
    // none at a directory
    bytes: Option<Vec<u8>>,
}

impl Model for Node {
    ghost use Rattle.std.specs.Option.{option_map};
    ghost use Rattle.plain_trees.specs.Contents.{Entry};
    ghost use Rattle.memory_trees.specs.Nodes.{entry_of};

    ghost Value = { Entry };

    ghost view = { λ n. entry_of (option_map (λ v. v.items) n.bytes) };
}

impl Node {
    ghost use Rattle.std.specs.Prelude.{◌≡◌, IfOk, MatchOption};
    ghost use Rattle.plain_trees.specs.Contents.{Entry, is_dir};
    ghost use Rattle.plain_trees.specs.Trees.{bytes_of};

    /// A directory.
    pub fn dir() -> Self
        ensures { result ≡ Entry.Dir }
    {
        Node { bytes: None }
    }

    /// A file with these bytes.
    pub fn file(bytes: Vec<u8>) -> Self
        ensures { result ≡ Entry.File bytes.items }
    {
        Node { bytes: Some(bytes) }
    }

    pub fn is_dir(&self) -> bool
        ensures { result ≡ is_dir self.now }
    {
        self.bytes.is_none()
    }

    /// The bytes of a file; none of a directory.
    pub fn bytes(&self) -> &[u8]
        ensures { result.now ≡ bytes_of (Some self.now) }
    {
        match &self.bytes {
            Some(bytes) => bytes.as_slice(),
            None => &[],
        }
    }
}

impl Clone for Node {
    ghost use Rattle.std.specs.Prelude.{◌≡◌, IfOk};

    ghost is_clone = { λ old new. new ≡ old };

    fn clone(&self) -> Result<Self, AllocError>
        ensures { IfOk result (λ node. node ≡ self.now) }
    {
        match &self.bytes {
            Some(bytes) => Ok(Node {
                bytes: Some(bytes.clone()?),
            }),
            None => Ok(Node { bytes: None }),
        }
    }
}
