//! An argument of a subcommand.
ghost use Rattle.std.specs.Prelude.{◌≡◌, IfOk, false};
ghost use Rattle.clap.specs.Words.{app_of, rule_of};
ghost use Rattle.clap.specs.declared.builder.command.Command.TheViews.{out-Command};
ghost use Rattle.command_words.specs.Tables.{rule_asked, with_arguments};

use crate::names::{COUNT, FILE};
use clap::{Arg, ArgAction, Command, value_parser};
use std::alloc::{AllocError, Global};

/// An argument of a subcommand: the name by which it is read, and what help tells of it.
#[derive(Clone, Copy)]
pub(crate) enum Argument {
    /// A word that has to be given.
    Word {
        name: &'static str,
        help: &'static str,
    },
    /// A word that has to be given, told under another name.
    ShownWord {
        name: &'static str,
        shown: &'static str,
        help: &'static str,
    },
    /// A word that may be left out.
    OptionalWord {
        name: &'static str,
        help: &'static str,
    },
    /// An option `--NAME NUMBER`, whose number help tells under another name.
    NumberOption {
        name: &'static str,
        shown: &'static str,
        help: &'static str,
    },
    /// An option `--LONG FILE`, which names a file.
    FileOption {
        name: &'static str,
        long: &'static str,
        help: &'static str,
    },
    /// A flag `--NAME`.
    Flag {
        name: &'static str,
        help: &'static str,
    },
    /// How many, by itself, which may be left out.
    Count {
        help: &'static str,
    },
}

/// The command with the arguments more.
pub(crate) fn with_arguments<'a>(
    alloc: Global,
    command: Command<'a>,
    arguments: &'static [Argument],
) -> Result<Command<'a>, AllocError>
    ensures app { IfOk result (λ more. app_of more ≡ with_arguments (app_of command.entry) arguments.now) }
    ensures local { IfOk result (λ more. (out-Command more).has_globals ≡ (out-Command command.entry).has_globals) }
{
    let mut more = command;
    for argument in arguments {
        more = more.arg(arg_of(alloc, *argument))?;
    }
    Ok(more)
}

/// The argument as clap reads it.
fn arg_of<'a>(alloc: Global, argument: Argument) -> Arg<'a>
    ensures rule { rule_of result ≡ rule_asked argument }
    ensures local { result.global ≡ false }
{
    match argument {
        Argument::Word { name, help } => Arg::new(alloc, name)
            .required(true)
            .action(ArgAction::Set)
            .help(help),
        Argument::ShownWord { name, shown, help } => Arg::new(alloc, name)
            .value_name(shown)
            .required(true)
            .action(ArgAction::Set)
            .help(help),
        Argument::OptionalWord { name, help } => {
            Arg::new(alloc, name).action(ArgAction::Set).help(help)
        }
        Argument::NumberOption { name, shown, help } => Arg::new(alloc, name)
            .long(name)
            .value_name(shown)
            .action(ArgAction::Set)
            .value_parser(value_parser!(u32))
            .help(help),
        Argument::FileOption { name, long, help } => Arg::new(alloc, name)
            .long(long)
            .value_name(FILE)
            .action(ArgAction::Set)
            .help(help),
        Argument::Flag { name, help } => Arg::new(alloc, name)
            .long(name)
            .action(ArgAction::SetTrue)
            .help(help),
        Argument::Count { help } => Arg::new(alloc, COUNT)
            .action(ArgAction::Set)
            .value_parser(value_parser!(u32))
            .help(help),
    }
}
