//! The words of the program `uffs` as clap reads them: its subcommands, their arguments, and the texts of its help.
#![tactic(auto)]

mod about_commands;
mod archive_commands;
mod argument;
mod changing_commands;
mod copy_commands;
mod create_commands;
mod flash_commands;
mod grammar;
mod history_commands;
mod image_commands;
pub mod names;
mod part_commands;
mod raw_commands;
mod reading_commands;
mod shared_arguments;
mod subcommand;
mod update_commands;

pub use grammar::{VERSION, program};
