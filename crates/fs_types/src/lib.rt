//! The values that every layer speaks of: paths, calls, replies and refusals. And counts without bytes and without a
//! greatest value, of what proofs count and no program reads.
#![tactic(auto)]

mod ask;
mod call;
mod count;
mod cp_name;
mod event;
mod fault;
mod limits;
mod name;
mod named_file;
mod open_flags;
mod path;
mod request;
mod sequence;

pub use ask::Ask;
pub use call::{Call, Group, Reply, Stat, Version, View};
pub use count::Count;
pub use cp_name::CpName;
pub use event::{Answer, Event};
pub use fault::Fault;
pub use limits::{
    ANCHORS, CHAIN_NODES, MAX_BAD_BLOCKS, MAX_CHECKPOINT_BYTES, MAX_CHECKPOINTS, MAX_ENTRIES,
    MAX_FILE_BYTES, MAX_NAME_BYTES, MAX_NAMES, MAX_OPEN_FILES, MAX_VERSIONS, MIN_BLOCK_BYTES,
    MIN_VERSIONS, MOUNTED_NODES, NODE_ENTRIES, limit_laws,
};
pub use name::{Name, is_after};
pub use named_file::{NamedFile, files_refusal};
pub use open_flags::OpenFlags;
pub use path::{Path, is_lawful_name};
pub use request::Request;
pub use sequence::{Bytes, Sequence};
