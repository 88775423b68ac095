//! What is told of the space that a history keeps.
use fs_types::{CpName, Sequence};

/// What each version and each checkpoint keeps.
#[derive(Debug, Drop)]
pub struct SpaceLine {
    /// The versions, the oldest first.
    pub versions: Sequence<VersionLine>,
    /// The checkpoints, in byte order of their names.
    pub checkpoints: Sequence<CheckpointLine>,
}

/// What a version keeps.
#[derive(Clone, Copy, Debug, Drop)]
pub struct VersionLine {
    /// Its serial.
    pub serial: u64,
    /// How many blocks more are free once it and the versions before it are forgotten, where that may be.
    pub frees: Option<u64>,
    /// How many blocks nothing else keeps.
    pub alone: u64,
    /// Whether it is the present one.
    pub is_present: bool,
}

/// What a checkpoint keeps.
#[derive(Debug, Drop)]
pub struct CheckpointLine {
    /// Its name.
    pub name: CpName,
    /// How many blocks nothing else keeps.
    pub alone: u64,
}
