//! How much there may be of names, paths, directories, files, versions and open files.
ghost use Rattle.std.specs.Prelude.{◌≡◌};

/// The blocks of the anchors, which are the first of a flash; the first data block is the next one.
pub const ANCHORS: u32 = 8;

/// The most bytes in a name of a directory entry.
pub const MAX_NAME_BYTES: usize = 64;

/// The most names in a path.
pub const MAX_NAMES: usize = 16;

/// The most bytes in a name of a checkpoint.
pub const MAX_CHECKPOINT_BYTES: usize = 31;

/// The fewest bytes in a block: any node that has no data of a file fits.
pub const MIN_BLOCK_BYTES: usize = 4096;

/// How many nodes a mounted system keeps in memory, where no other number is asked.
pub const MOUNTED_NODES: usize = 8;

/// The most entries in one node of a directory.
pub const NODE_ENTRIES: usize = 32;

/// The most nodes of a directory.
pub const CHAIN_NODES: usize = 32;

/// The most entries in a directory.
pub const MAX_ENTRIES: usize = NODE_ENTRIES * CHAIN_NODES;

/// The most bytes in a file.
pub const MAX_FILE_BYTES: u32 = 16_777_216;

/// The fewest versions that a system may keep: one to undo, and the present one.
pub const MIN_VERSIONS: u16 = 2;

/// The most versions that a system may keep.
pub const MAX_VERSIONS: u16 = 128;

/// The most checkpoints.
pub const MAX_CHECKPOINTS: usize = 16;

/// The most bad blocks.
pub const MAX_BAD_BLOCKS: usize = 256;

/// The most open files.
pub const MAX_OPEN_FILES: usize = 16;

/// Each limit as its number.
pub fn limit_laws()
    // Of names, paths and directories.
    ensures names { MAX_NAME_BYTES ≡ 64 }
    ensures paths { MAX_NAMES ≡ 16 }
    ensures nodes { (NODE_ENTRIES ≡ 32) × (CHAIN_NODES ≡ 32) }
    ensures entries { MAX_ENTRIES ≡ 1024 }

    // Of files.
    ensures files { MAX_FILE_BYTES ≡ 16777216 }
    ensures open_files { MAX_OPEN_FILES ≡ 16 }

    // Of histories.
    ensures versions { (MIN_VERSIONS ≡ 2) × (MAX_VERSIONS ≡ 128) }
    ensures checkpoints { (MAX_CHECKPOINTS ≡ 16) × (MAX_CHECKPOINT_BYTES ≡ 31) }

    // Of a flash.
    ensures anchors { ANCHORS ≡ 8 }
    ensures blocks { MIN_BLOCK_BYTES ≡ 4096 }
    ensures mounted_nodes { MOUNTED_NODES ≡ 8 }
    ensures bad_blocks { MAX_BAD_BLOCKS ≡ 256 }
{}
