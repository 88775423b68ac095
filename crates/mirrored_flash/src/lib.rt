//! A flash whose pages are mirrored in memory: what each operation does to the part is told by who did it,
//! and the mirror changes by that.
#![tactic(auto)]

mod mirror;
mod shown_pages;

pub use mirror::Mirror;
