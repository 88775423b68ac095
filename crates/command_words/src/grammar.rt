//! The program `uffs` with its subcommands.
ghost use Rattle.std.specs.Prelude.{◌≡◌, IfOk};
ghost use Rattle.clap.specs.Words.{app_of};
ghost use Rattle.command_words.specs.Grammar.{bare_app, uffs, with_about_apps, with_changing_apps, with_form_apps, with_history_apps, with_image_apps, with_reading_apps, with_tree_apps};

use crate::about_commands::{EXPLAIN_COMMAND, HELP_COMMAND, VERSION_COMMAND};
use crate::archive_commands::{TAR_COMMAND, UNTAR_COMMAND};
use crate::changing_commands::{FORMAT_COMMAND, PUT_COMMAND, RUN_COMMAND};
use crate::copy_commands::COPY_COMMAND;
use crate::create_commands::CREATE_COMMAND;
use crate::flash_commands::{MEMORY_COMMAND, SERVE_COMMAND};
use crate::history_commands::{
    CHECKPOINT_COMMAND, FORGET_COMMAND, GOTO_COMMAND, REDO_COMMAND, RMCHECKPOINT_COMMAND,
    ROLLBACK_COMMAND, TRIM_COMMAND, UNDO_COMMAND,
};
use crate::image_commands::{
    CHECK_COMMAND, DF_COMMAND, LOG_COMMAND, MAP_COMMAND, VERSIONS_COMMAND,
};
use crate::part_commands::{FROM_PART_COMMAND, TO_PART_COMMAND};
use crate::raw_commands::{FROM_RAW_COMMAND, RAW_COMMAND};
use crate::reading_commands::{
    CAT_COMMAND, DIFF_COMMAND, DU_COMMAND, GET_COMMAND, HISTORY_COMMAND, LS_COMMAND, TREE_COMMAND,
};
use crate::subcommand::{Subcommand, with_subcommands};
use crate::update_commands::UPDATE_COMMAND;
use clap::Command;
use std::alloc::{AllocError, Global};

/// What `uffs --version` says after the name.
pub const VERSION: &str = "0.1.0";

const PROGRAM_HELP: &str = "Status:
  0  it ran to its end, whatever the replies
  1  IMAGE, the input or the output failed, or memory
  2  the words were refused, or help or the version was asked for
  3  IMAGE holds no image, or a format or a mount was refused
  4  what was asked for was refused, or a line of a script with --stop
  5  trees differ, with diff --exit-code, or something is lost, with copy --salvage

Example:
  uffs format disk.image
  echo 'mkdir /a' | uffs run disk.image";

/// The subcommands that make or change an image. The tables have the order in which help tells them.
static CHANGING_COMMANDS: [Subcommand; 3] = [FORMAT_COMMAND, RUN_COMMAND, PUT_COMMAND];

/// The subcommands that move or change the history of an image, and the one that erases what it does not
/// reach.
static HISTORY_COMMANDS: [Subcommand; 8] = [
    UNDO_COMMAND,
    REDO_COMMAND,
    GOTO_COMMAND,
    ROLLBACK_COMMAND,
    CHECKPOINT_COMMAND,
    RMCHECKPOINT_COMMAND,
    FORGET_COMMAND,
    TRIM_COMMAND,
];

/// The subcommands that read what stands in an image, or tell of it as a whole.
static READING_COMMANDS: [Subcommand; 12] = [
    GET_COMMAND,
    CAT_COMMAND,
    TREE_COMMAND,
    LS_COMMAND,
    DU_COMMAND,
    HISTORY_COMMAND,
    DIFF_COMMAND,
    VERSIONS_COMMAND,
    CHECK_COMMAND,
    LOG_COMMAND,
    DF_COMMAND,
    MAP_COMMAND,
];

/// The subcommands on a flash in another form than an image, and those that change the form.
static FORM_COMMANDS: [Subcommand; 6] = [
    MEMORY_COMMAND,
    SERVE_COMMAND,
    TO_PART_COMMAND,
    FROM_PART_COMMAND,
    RAW_COMMAND,
    FROM_RAW_COMMAND,
];

/// The subcommands that bring trees from one place to another.
static TREE_COMMANDS: [Subcommand; 5] = [
    UPDATE_COMMAND,
    TAR_COMMAND,
    UNTAR_COMMAND,
    CREATE_COMMAND,
    COPY_COMMAND,
];

/// The subcommands that tell of the program itself.
static ABOUT_COMMANDS: [Subcommand; 3] = [EXPLAIN_COMMAND, HELP_COMMAND, VERSION_COMMAND];

/// The program with all its subcommands.
pub fn program<'a>(alloc: Global) -> Result<Command<'a>, AllocError>
    ensures { IfOk result (λ command. app_of command ≡ uffs) }
{
    let program = with_changing_commands(alloc, bare_program(alloc)?)?;
    let program = with_history_commands(alloc, program)?;
    let program = with_reading_commands(alloc, program)?;
    let program = with_form_commands(alloc, program)?;
    let program = with_tree_commands(alloc, program)?;
    with_about_commands(alloc, program)
}

/// The program with the subcommands more that make or change an image.
fn with_changing_commands<'a>(
    alloc: Global,
    program: Command<'a>,
) -> Result<Command<'a>, AllocError>
    ensures { IfOk result (λ more. app_of more ≡ with_changing_apps (app_of program.entry)) }
{
    with_subcommands(alloc, program, &CHANGING_COMMANDS)
}

/// The program with the subcommands more that move or change the history of an image.
fn with_history_commands<'a>(alloc: Global, program: Command<'a>) -> Result<Command<'a>, AllocError>
    ensures { IfOk result (λ more. app_of more ≡ with_history_apps (app_of program.entry)) }
{
    with_subcommands(alloc, program, &HISTORY_COMMANDS)
}

/// The program with the subcommands more that read an image.
fn with_reading_commands<'a>(alloc: Global, program: Command<'a>) -> Result<Command<'a>, AllocError>
    ensures { IfOk result (λ more. app_of more ≡ with_image_apps (with_reading_apps (app_of program.entry))) }
{
    with_subcommands(alloc, program, &READING_COMMANDS)
}

/// The program with the subcommands more on a flash in another form.
fn with_form_commands<'a>(alloc: Global, program: Command<'a>) -> Result<Command<'a>, AllocError>
    ensures { IfOk result (λ more. app_of more ≡ with_form_apps (app_of program.entry)) }
{
    with_subcommands(alloc, program, &FORM_COMMANDS)
}

/// The program with the subcommands more that bring trees from one place to another.
fn with_tree_commands<'a>(alloc: Global, program: Command<'a>) -> Result<Command<'a>, AllocError>
    ensures { IfOk result (λ more. app_of more ≡ with_tree_apps (app_of program.entry)) }
{
    with_subcommands(alloc, program, &TREE_COMMANDS)
}

/// The program with the subcommands more that tell of the program itself.
fn with_about_commands<'a>(alloc: Global, program: Command<'a>) -> Result<Command<'a>, AllocError>
    ensures { IfOk result (λ more. app_of more ≡ with_about_apps (app_of program.entry)) }
{
    with_subcommands(alloc, program, &ABOUT_COMMANDS)
}

/// The program before its subcommands.
fn bare_program<'a>(alloc: Global) -> Result<Command<'a>, AllocError>
    ensures { IfOk result (λ command. app_of command ≡ bare_app) }
{
    let program = Command::new(alloc, "uffs").bin_name("uffs")?;
    Ok(
        program
            .no_binary_name(true)
            .disable_help_subcommand(true)
            .subcommand_required(true)
            .version(VERSION)
            .about("A file system with undo and rollback, on an image of raw flash")
            .after_help(PROGRAM_HELP),
    )
}
