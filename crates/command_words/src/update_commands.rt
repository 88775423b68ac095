//! The word of `uffs` that makes an update of two images.
use crate::argument::Argument;
use crate::names::{FILE, IMAGE};
use crate::subcommand::Subcommand;

const UPDATE_HELP: &str =
    "Prints the lines of a script that bring the present tree of OLD to that of NEW, both images, as one
change group, and a `sync`. A file that is new or has other bytes is written whole; what has gone is
removed first. Run with `run --stop` on an image it makes one version there, of which `undo` gives the
tree before; other files of that image stay. A line is refused where the image has something else in
the way. Nothing is written to OLD and NEW.

With --changes what differs in a file of both is put over it, so that a large file with few changes
takes short lines. The image that it is run on must have the bytes of OLD in each file that differs:
NOTHING CHECKS THIS, and a file with other bytes there becomes neither that of OLD nor that of NEW.

Status: 0 it is printed; 1 OLD or NEW cannot be read, the output failed, or memory; 2 the words; 3
OLD or NEW holds no image, or its mount was refused; 4 a tree has too much, told as
uffs: TOOMANYLINES.

Examples: uffs update old.image new.image | uffs run disk.image --stop
          uffs update --changes old.image new.image | gzip > changes.gz";

pub(crate) const UPDATE_COMMAND: Subcommand = Subcommand {
    name: "update",
    about: "Prints the script that brings the tree of one image to that of another",
    help: UPDATE_HELP,
    arguments: &[
        Argument::ShownWord {
            name: IMAGE,
            shown: "OLD",
            help: "The image with the old tree",
        },
        Argument::ShownWord {
            name: FILE,
            shown: "NEW",
            help: "The image with the new tree",
        },
        Argument::Flag {
            name: "changes",
            help: "Writes of a file of both only what differs, over the bytes that OLD has",
        },
    ],
};
