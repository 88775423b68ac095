//! A subcommand of the program.
ghost use Rattle.std.specs.Prelude.{◌≡◌, IfOk, false};
ghost use Rattle.clap.specs.Words.{app_of};
ghost use Rattle.clap.specs.declared.builder.command.Command.TheViews.{out-Command};
ghost use Rattle.command_words.specs.Tables.{app_asked, with_subcommands};

use crate::argument::{Argument, with_arguments};
use clap::Command;
use std::alloc::{AllocError, Global};

/// A subcommand with its arguments, and what help tells of it.
#[derive(Clone, Copy)]
pub(crate) struct Subcommand {
    pub(crate) name: &'static str,
    pub(crate) about: &'static str,
    pub(crate) help: &'static str,
    pub(crate) arguments: &'static [Argument],
}

/// The program with the subcommands more.
pub(crate) fn with_subcommands<'a>(
    alloc: Global,
    program: Command<'a>,
    subcommands: &'static [Subcommand],
) -> Result<Command<'a>, AllocError>
    ensures { IfOk result (λ more. app_of more ≡ with_subcommands (app_of program.entry) subcommands.now) }
{
    let mut more = program;
    for subcommand in subcommands {
        more = more.subcommand(command_of(alloc, *subcommand)?)?;
    }
    Ok(more)
}

/// The subcommand as clap reads it.
fn command_of<'a>(alloc: Global, subcommand: Subcommand) -> Result<Command<'a>, AllocError>
    ensures app { IfOk result (λ command. app_of command ≡ app_asked subcommand) }
    ensures local { IfOk result (λ command. (out-Command command).has_globals ≡ false) }
{
    let command = Command::new(alloc, subcommand.name)
        .about(subcommand.about)
        .after_help(subcommand.help);
    with_arguments(alloc, command, subcommand.arguments)
}
