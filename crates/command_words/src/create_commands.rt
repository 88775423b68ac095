//! The word of `uffs` that makes an image of a folder.
use crate::argument::Argument;
use crate::names::FILE;
use crate::shared_arguments::{HISTORY_OPTION, IMAGE_WORD, PAGE_OPTION, PAGES_OPTION};
use crate::subcommand::Subcommand;

const CREATE_HELP: &str =
    "IMAGE is an image with a file system that holds what is in FOLDER and below it, as one version. It is
written whole or not at all: as IMAGE.new, which is renamed. An image that is there is replaced. Without N
it has blocks for the folder, H changes of its largest file, and as much free: 8 + 2 * (T + H * C), at
least 16, and at most as many as have 67108864 bytes. The tree has at most T nodes: one for each folder,
one more for each 32 names, and for each file one for every K * P - 80 bytes. A change has at most C:
those of the largest file, one for each directory on the longest way, and one more for each 32 names. The
sizes are told on standard error then, and where not as many as H changes have room, how many have. The
same folder makes the same image, whatever its times.

Status: 0 it is written; 1 what is in FOLDER cannot be read or put, as a link without --skip-links,
IMAGE cannot be written, or memory; 2 the words, or FOLDER is no folder; 3 the sizes or H are refused,
with their refusal; 4 it is too much for N blocks, told as uffs: ENOSPC 15: /site.

Example: uffs create disk.image ./site --history 16";

pub(crate) const CREATE_COMMAND: Subcommand = Subcommand {
    name: "create",
    about: "Makes an image that holds a folder of the host",
    help: CREATE_HELP,
    arguments: &[
        IMAGE_WORD,
        Argument::ShownWord {
            name: FILE,
            shown: "FOLDER",
            help: "The folder of the host",
        },
        PAGE_OPTION,
        PAGES_OPTION,
        Argument::NumberOption {
            name: "blocks",
            shown: "N",
            help: "Blocks, 16 to 16384 [default: as many as it needs, or the most there may be]",
        },
        HISTORY_OPTION,
        Argument::Flag {
            name: "progress",
            help: "Tells how far it is, on standard error",
        },
        Argument::Flag {
            name: "skip-links",
            help: "Leaves links out, each told on standard error",
        },
    ],
};
