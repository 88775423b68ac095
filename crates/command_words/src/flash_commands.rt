//! The words of `uffs` that run a script on a flash that is no image.
use crate::argument::Argument;
use crate::names::{ANSWERS, ORDERS, PART};
use crate::subcommand::Subcommand;

const MEMORY_HELP: &str =
    "The flash has 32 blocks of 16 pages of 256 bytes, and 8 versions are kept. No file is read or
written.

Status: 0 the script ran to its end; 1 the input or the output failed, or memory; 2 the words.

Example: echo 'df' | uffs memory";

pub(crate) const MEMORY_COMMAND: Subcommand = Subcommand {
    name: "memory",
    about: "Runs the script on standard input on a flash in memory",
    help: MEMORY_HELP,
    arguments: &[],
};

const SERVE_HELP: &str =
    "A program that drives a part starts this as a child. It writes to ANSWERS what the part holds, and
carries out what is written to ORDERS: both are fifos, or /dev/fd/N of pipes. ANSWERS is opened first.
Each line of the input is answered by one line of the output before the next is read. With --history
an empty file system is made first. docs/serve.md has the bytes. With --part the part stands in place
in the flat file FILE, as format --part makes it, and a sync that was answered ok is on the medium.

Status: 0 the script ran to its end; 1 ANSWERS, ORDERS or FILE cannot be opened, the start, the input
or the output failed, or memory; 2 the words; 3 ANSWERS begins with no image, FILE holds no part, or a
format or a mount was refused.

Example: uffs serve /dev/fd/3 /dev/fd/4
         uffs serve --part disk.part";

pub(crate) const SERVE_COMMAND: Subcommand = Subcommand {
    name: "serve",
    about: "Runs the script on standard input on the part of a driver in another process",
    help: SERVE_HELP,
    arguments: &[
        Argument::OptionalWord {
            name: ANSWERS,
            help: "What the driver writes: what its part holds, then its answers",
        },
        Argument::OptionalWord {
            name: ORDERS,
            help: "What the driver reads: its orders",
        },
        Argument::FileOption {
            name: PART,
            long: PART,
            help: "Has no driver: the part is in this flat file",
        },
        Argument::NumberOption {
            name: "history",
            shown: "H",
            help: "Makes an empty file system first, which keeps so many versions, 2 to 128",
        },
    ],
};
