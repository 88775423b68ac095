//! Tests of mounted systems: what mounts and verifications make of worked contents of a flash, refusals and
//! reads. Mounts, calls and steps of reclaiming with less memory than they want too.
#![tactic(auto)]

#[cfg(test)]
mod budget;
#[cfg(test)]
mod counted;
#[cfg(test)]
mod files_in_one_call;
#[cfg(test)]
mod files_in_want;
#[cfg(test)]
mod flashes;
#[cfg(test)]
mod formats;
#[cfg(test)]
mod growths;
#[cfg(test)]
mod large_blocks;
#[cfg(test)]
mod mounts_in_want;
#[cfg(test)]
mod reads;
#[cfg(test)]
mod records;
#[cfg(test)]
mod refusals;
#[cfg(test)]
mod verifications;
#[cfg(test)]
mod verified_chains;
#[cfg(test)]
mod worked;
