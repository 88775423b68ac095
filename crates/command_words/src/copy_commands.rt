//! The word of `uffs` that copies the history of an image to a new one.
use crate::argument::Argument;
use crate::names::{FILE, IMAGE};
use crate::subcommand::Subcommand;

const COPY_HELP: &str =
    "NEW is an image with every kept version and checkpoint of the image OLD, in their order, and with the
same present version. A size that is not given is that of OLD, and H too. A smaller H keeps the newest
versions; where the present one is older than these it is kept, and one fewer of them. What is dropped is
told on standard error. Serials ascend as in OLD, and are others. NEW is written whole
or not at all: as NEW.new, which is renamed. An image that is there is replaced. Nothing is printed, and
nothing is written to OLD. With --salvage OLD may be DAMAGED: the versions and checkpoints whose trees
are whole are copied, and each lost one is told on standard error. Where the present version is lost what
is left of its tree is one version more, the last and the present one. Each file and each directory that it
has lost is told, and each directory of which it has lost entries whose names nobody knows. Where no version
is whole it is the only one, and each checkpoint is told, which is not copied.

Status: 0 it is written; 1 OLD cannot be read, NEW cannot be written, or memory; 2 the words; 3 OLD
holds no image, its mount was refused, or the sizes or H are, with their refusal; 4 it is too much for
NEW, told as uffs: ENOSPC 15, or a tree has too much, told as uffs: TOOMANYLINES; 5 it is written, and
something is lost, with --salvage.

Example: uffs copy old.image new.image --blocks 64 --history 16
         uffs copy broken.image whole.image --salvage";

pub(crate) const COPY_COMMAND: Subcommand = Subcommand {
    name: "copy",
    about: "Copies the versions and checkpoints of an image to a new one",
    help: COPY_HELP,
    arguments: &[
        Argument::ShownWord {
            name: IMAGE,
            shown: "OLD",
            help: "The image that is copied",
        },
        Argument::ShownWord {
            name: FILE,
            shown: "NEW",
            help: "The image that is made",
        },
        Argument::NumberOption {
            name: "page",
            shown: "P",
            help: "Bytes of a page: 256, 512, 1024, 2048 or 4096 [default: as OLD]",
        },
        Argument::NumberOption {
            name: "pages",
            shown: "K",
            help: "Pages of a block, which has 4096 to 262144 bytes [default: as OLD]",
        },
        Argument::NumberOption {
            name: "blocks",
            shown: "N",
            help: "Blocks, 16 to 16384, in at most 67108864 bytes [default: as OLD]",
        },
        Argument::NumberOption {
            name: "history",
            shown: "H",
            help: "Versions that are kept, 2 to 128 [default: as OLD]",
        },
        Argument::Flag {
            name: "salvage",
            help: "Copies of a damaged image what is whole, and tells what is lost",
        },
    ],
};
