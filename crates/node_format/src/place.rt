//! What an entry of a directory names.
ghost use Rattle.std.specs.Prelude.{◌≡◌};
ghost use Rattle.node_format.specs.Items.{is_dir_place};

/// What an entry of a directory names, by blocks.
#[derive(Clone, Copy, Debug, PartialEq, Eq)]
pub enum Place {
    /// A directory, by the block of its first node.
    Dir { block: u32 },
    /// A file of `length` bytes, at most 16,777,216, by the block of the last node of its body. A file
    /// of no bytes has no node, and head 0.
    File { head: u32, length: u32 },
}

impl Place {
    /// Whether this is a directory.
    pub fn is_dir(self) -> bool
        ensures { result ≡ is_dir_place self }
    {
        match self {
            Place::Dir { .. } => true,
            Place::File { .. } => false,
        }
    }
}
