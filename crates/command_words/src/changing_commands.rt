//! The words of `uffs` that make or change an image.
use crate::argument::Argument;
use crate::names::{FILE, IMAGE, PART, PATH};
use crate::shared_arguments::{HISTORY_OPTION, IMAGE_WORD, PAGE_OPTION, PAGES_OPTION};
use crate::subcommand::Subcommand;

const FORMAT_HELP: &str =
    "An image that is there is replaced. Nothing is printed. A refused format leaves IMAGE as it was.
With --part a part in the flat file FILE is made in the place of an image.

Status: 0 it is written; 1 IMAGE or FILE cannot be written, or memory; 2 the words; 3 the sizes or H
are refused, with their refusal.

Example: uffs format disk.image --blocks 64 --history 16";

pub(crate) const FORMAT_COMMAND: Subcommand = Subcommand {
    name: "format",
    about: "Makes an image with an empty file system",
    help: FORMAT_HELP,
    arguments: &[
        Argument::OptionalWord {
            name: IMAGE,
            help: "The file of the image",
        },
        Argument::FileOption {
            name: PART,
            long: PART,
            help: "Makes a part in this flat file instead",
        },
        PAGE_OPTION,
        PAGES_OPTION,
        Argument::NumberOption {
            name: "blocks",
            shown: "N",
            help: "Blocks, 16 to 16384, in at most 67108864 bytes [default: 32]",
        },
        HISTORY_OPTION,
    ],
};

const RUN_HELP: &str =
    "Each line of the input is answered by one line of the output. At the end of the script the image is
written back. What was not synced by then is lost, and where the script does not run to its end
IMAGE stays as it was. With --stop it ends at the first line that is refused, which is told with its
number, and IMAGE stays as it was.

Status: 0 the script ran to its end; 1 IMAGE, the input or the output failed, or memory; 2 the
words; 3 IMAGE holds no image, or its mount was refused; 4 a line was refused, with --stop.

Example: printf 'mkdir /a\\nsync\\n' | uffs run disk.image --stop";

pub(crate) const RUN_COMMAND: Subcommand = Subcommand {
    name: "run",
    about: "Runs the script on standard input on an image",
    help: RUN_HELP,
    arguments: &[
        IMAGE_WORD,
        Argument::Flag {
            name: "stop",
            help: "Ends at the first line that is refused",
        },
    ],
};

const PUT_HELP: &str =
    "FILE is a file of the host, or a folder with all that is below it; - is standard input, as a file.
Files that are there are replaced, and other entries of a directory stay, but with --mirror: then what
stands below PATH and not in the folder FILE is removed, and what a link in FILE stands for stays, which
--skip-links leaves out. All of it is one version, which is synced: `undo` takes it back, and where power
goes the tree is the old one. Where anything is refused IMAGE stays as it was. PATH is taken as it is
typed; one with a % is spelled as in a script, where %25 is % and %20 a space.

Status: 0 it is there; 1 IMAGE, FILE or the input cannot be read, IMAGE cannot be written, or memory; 2
the words, or FILE is no folder and --mirror or --skip-links is given; 3 IMAGE holds no image, or its
mount was refused; 4 it was refused, told as uffs: ENOENT 1: /site.

Example: uffs put disk.image ./site /site --mirror --progress";

pub(crate) const PUT_COMMAND: Subcommand = Subcommand {
    name: "put",
    about: "Puts a file or a folder of the host into an image, as one version",
    help: PUT_HELP,
    arguments: &[
        IMAGE_WORD,
        Argument::Word {
            name: FILE,
            help: "The file or the folder of the host",
        },
        Argument::Word {
            name: PATH,
            help: "Its path in the image",
        },
        Argument::Flag {
            name: "progress",
            help: "Tells how far it is, on standard error",
        },
        Argument::Flag {
            name: "mirror",
            help: "Removes below PATH what is not in the folder FILE",
        },
        Argument::Flag {
            name: "skip-links",
            help: "Leaves links in the folder FILE out, and tells each",
        },
    ],
};
