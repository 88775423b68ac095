//! Tests of single parts, of what no clause says: each public call that takes memory once with ample
//! memory, worked bytes, and streams that fail; headers of archives, and images in buffers.
#![tactic(auto)]

#[cfg(test)]
mod buffers;
#[cfg(test)]
mod caches;
#[cfg(test)]
mod commits;
#[cfg(test)]
mod directories;
#[cfg(test)]
mod extended_headers;
#[cfg(test)]
mod headers_read;
#[cfg(test)]
mod headers_written;
#[cfg(test)]
mod lines;
#[cfg(test)]
mod node_bytes;
#[cfg(test)]
mod paths;
#[cfg(test)]
mod planned_faults;
#[cfg(test)]
mod rings;
#[cfg(test)]
mod stores;
