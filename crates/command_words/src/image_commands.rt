//! The words of `uffs` that tell of an image as a whole.
use crate::argument::Argument;
use crate::names::FILE;
use crate::shared_arguments::IMAGE_WORD;
use crate::subcommand::Subcommand;

const VERSIONS_HELP: &str =
    "Prints a line for each kept version, the oldest first, and for each checkpoint: @ and its serial or =
and its name, how many directories and files stand in its tree, and the bytes of these files; frees,
how many blocks more are free once it and the versions before it are forgotten; and alone, how many
blocks nothing else keeps. The present version is told as such. Nothing is written to IMAGE.

Status: as of check; 4 it was refused by what the reading meets, told as uffs: EIO 23.

Example: uffs versions disk.image";

pub(crate) const VERSIONS_COMMAND: Subcommand = Subcommand {
    name: "versions",
    about: "Prints the versions and checkpoints of an image, with their sizes",
    help: VERSIONS_HELP,
    arguments: &[IMAGE_WORD],
};

const CHECK_HELP: &str =
    "The newest record is read, and every tree that it names. Nothing is written to IMAGE.

Status: 0 it prints ok; 1 IMAGE cannot be read, the output failed, or memory; 2 the words; 3 IMAGE
holds no image, or its mount was refused.

Example: uffs check disk.image";

pub(crate) const CHECK_COMMAND: Subcommand = Subcommand {
    name: "check",
    about: "Tells whether an image can be mounted",
    help: CHECK_HELP,
    arguments: &[IMAGE_WORD],
};

const LOG_HELP: &str =
    "Prints the reply to the line `log`: the next serial, the versions with * before the present one, and
the checkpoints. Nothing is written to IMAGE.

Status: as of check.

Example: uffs log disk.image";

pub(crate) const LOG_COMMAND: Subcommand = Subcommand {
    name: "log",
    about: "Prints the versions and checkpoints of an image",
    help: LOG_HELP,
    arguments: &[IMAGE_WORD],
};

const DF_HELP: &str =
    "Prints the reply to the line `df`: the data blocks, the bad and the free ones among them, and the
anchors that are not bad. Nothing is written to IMAGE.

Status: as of check.

Example: uffs df disk.image";

pub(crate) const DF_COMMAND: Subcommand = Subcommand {
    name: "df",
    about: "Prints how many blocks of an image are free",
    help: DF_HELP,
    arguments: &[IMAGE_WORD],
};

const MAP_HELP: &str =
    "Prints a sign for each block of the flash, 64 a line; then a line for each sign, with how many blocks
have it and what it means; and a line of sums. A sign tells the first of these that holds of its block:
R the anchor with the newest record, A another anchor, X bad, P reached by the present version alone, S
by it and others, V by other versions, C by checkpoints alone, - free and not erased, . free and erased.
Nothing is written to IMAGE. With --html the same is written to FILE as a page that needs no other file,
and nothing is printed. FILE is the old file or the new one, whole, and is never IMAGE.

Status: as of check; 1 also where FILE cannot be written; 4 it was refused by what the reading meets,
told as uffs: EIO 23.

Example: uffs map disk.image
         uffs map disk.image --html map.html";

pub(crate) const MAP_COMMAND: Subcommand = Subcommand {
    name: "map",
    about: "Prints what each block of an image is",
    help: MAP_HELP,
    arguments: &[
        IMAGE_WORD,
        Argument::FileOption {
            name: FILE,
            long: "html",
            help: "Writes it as a page of HTML to this file",
        },
    ],
};
