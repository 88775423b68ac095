//! The words of `uffs` that tell of the program itself.
use crate::argument::Argument;
use crate::names::{REFUSAL, WORD};
use crate::subcommand::Subcommand;

const EXPLAIN_HELP: &str =
    "Prints what the refusal of this number means, and what can be done; with a word, as ENOSPC, a line
for each refusal that has it. So it does for what is told with no number, as SYNTAX, TOOMANYLINES or
NotImage. Capitals and small letters are alike. No file is read or written.

Status: 0 it is printed; 1 the output failed, or memory; 2 the words; 4 nothing is told by this number
or this word, told as uffs: EINVAL 7: with the nearest words.

Example: uffs explain enospc";

pub(crate) const EXPLAIN_COMMAND: Subcommand = Subcommand {
    name: "explain",
    about: "Tells what a refusal means",
    help: EXPLAIN_HELP,
    arguments: &[Argument::Word {
        name: REFUSAL,
        help: "The number of the refusal, or its word",
    }],
};

const HELP_HELP: &str =
    "Prints what `uffs --help` tells, on standard output; with WORD what `uffs WORD --help` tells.

Status: 0 it is printed; 1 the output failed, or memory; 2 the words, or there is no such WORD.

Example: uffs help put | less";

pub(crate) const HELP_COMMAND: Subcommand = Subcommand {
    name: "help",
    about: "Prints what can be asked for",
    help: HELP_HELP,
    arguments: &[Argument::OptionalWord {
        name: WORD,
        help: "The word of which it is told, as put",
    }],
};

const VERSION_HELP: &str = "Prints what `uffs --version` tells, on standard output.

Status: 0 it is printed; 1 the output failed, or memory; 2 the words.

Example: uffs version";

pub(crate) const VERSION_COMMAND: Subcommand = Subcommand {
    name: "version",
    about: "Prints the program and its version",
    help: VERSION_HELP,
    arguments: &[],
};
