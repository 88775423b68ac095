//! Tests of what a row cannot make: streams and files that fail, want of memory, sessions, flashes of other
//! types, images and folders as they are read, jobs that words ask for, and files that are replaced.
#![tactic(auto)]

#[cfg(test)]
mod counted_flash;
#[cfg(test)]
mod failing_files;
#[cfg(test)]
mod flashes;
#[cfg(test)]
mod flat_part;
#[cfg(test)]
mod folders;
#[cfg(test)]
mod images;
#[cfg(test)]
mod memory;
#[cfg(test)]
mod memory_folder;
#[cfg(test)]
mod program_words;
#[cfg(test)]
mod replacements;
#[cfg(test)]
mod sessions;
#[cfg(test)]
mod streams;
