//! The files of the host: images that are claimed, read and replaced, what is put into them, folders that
//! are made whole, parts that are written in place, and streams that join the program to another one.
#![tactic(auto)]

mod host_files;

pub use host_files::{HostFiles, HostPart};
