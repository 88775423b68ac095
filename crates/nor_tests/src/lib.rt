//! Tests of serial NOR parts in memory: marks and sums of the dense layout, the bytes of an image programmed into
//! a part, blocks that the flash erased itself, and the file system over a part of which operations fail or
//! are cut.
#![tactic(auto)]

#[cfg(test)]
mod cleaned;
#[cfg(test)]
mod dense_marks;
#[cfg(test)]
mod over_parts;
#[cfg(test)]
mod raws;
#[cfg(test)]
mod reads;
#[cfg(test)]
mod sessions;
