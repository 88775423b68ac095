//! The words of `uffs` that read what stands in an image.
use crate::argument::Argument;
use crate::names::{FILE, OTHER, PATH};
use crate::shared_arguments::{IMAGE_WORD, VIEW_WORD};
use crate::subcommand::Subcommand;

const GET_HELP: &str =
    "The file at PATH of the image is written to FILE, whole or not at all: it is written as FILE.new,
which is renamed. A file that is there is replaced. As - for FILE it is printed. A directory becomes a
folder, with all that is below it, whole or not at all: FILE must not be there, nor FILE.new, under
which it is made. PATH is taken as it is typed; one with a % is spelled as in a script, where %25 is %
and %20 a space. Without VIEW it is that of the present version; @5 is the version of serial 5, and
=name a checkpoint, spelled as in a script. Nothing is written to IMAGE.

Status: 0 it is there; 1 IMAGE cannot be read, FILE cannot be written, or memory; 2 the words; 3
IMAGE holds no image, or its mount was refused; 4 it was refused, told as uffs: ENOENT 1, or the
directory's tree has too much, told as uffs: TOOMANYLINES.

Example: uffs get disk.image /site/index.html ./index.html @5
         uffs get disk.image /site ./site";

pub(crate) const GET_COMMAND: Subcommand = Subcommand {
    name: "get",
    about: "Puts a file or a directory of an image into one of the host",
    help: GET_HELP,
    arguments: &[
        IMAGE_WORD,
        Argument::Word {
            name: PATH,
            help: "The path of the file or the directory in the image",
        },
        Argument::Word {
            name: FILE,
            help: "The file or the folder of the host",
        },
        VIEW_WORD,
    ],
};

const CAT_HELP: &str =
    "Prints the bytes of the file at PATH of the image, and nothing else. PATH and VIEW are as of get.
Nothing is written to IMAGE.

Status: 0 it is printed; 1 IMAGE cannot be read, the output failed, or memory; 2 the words; 3 IMAGE
holds no image, or its mount was refused; 4 it was refused, told as uffs: ENOENT 1.

Example: uffs cat disk.image /site/index.html | less";

pub(crate) const CAT_COMMAND: Subcommand = Subcommand {
    name: "cat",
    about: "Prints the bytes of a file of an image",
    help: CAT_HELP,
    arguments: &[
        IMAGE_WORD,
        Argument::Word {
            name: PATH,
            help: "The path of the file in the image",
        },
        VIEW_WORD,
    ],
};

const TREE_HELP: &str =
    "Prints a line for each directory and each file of a tree, a directory before what stands in it and
names in byte order: a directory's path with / after it, a file's with its length in bytes. Without
VIEW it is the present version; @5 is the version of serial 5, and =name a checkpoint. Nothing is
written to IMAGE.

Status: 0 it is printed; 1 IMAGE cannot be read, the output failed, or memory; 2 the words; 3 IMAGE
holds no image, or its mount was refused; 4 it was refused, told as uffs: NOSUCHVERSION 20.

Example: uffs tree disk.image =before";

pub(crate) const TREE_COMMAND: Subcommand = Subcommand {
    name: "tree",
    about: "Prints all that stands in an image",
    help: TREE_HELP,
    arguments: &[IMAGE_WORD, VIEW_WORD],
};

const LS_HELP: &str =
    "Prints a line for each entry of the directory at PATH, as `tree` prints it, in byte order of the names;
of a file its own line. Without PATH it is the root. PATH begins with a slash, and VIEW with @ or =, so
either may stand alone; they are as of get. Nothing is written to IMAGE.

Status: 0 it is printed; 1 IMAGE cannot be read, the output failed, or memory; 2 the words; 3 IMAGE
holds no image, or its mount was refused; 4 it was refused, told as uffs: ENOENT 1.

Example: uffs ls disk.image /site @5
         uffs ls disk.image =before";

pub(crate) const LS_COMMAND: Subcommand = Subcommand {
    name: "ls",
    about: "Prints what stands in a directory of an image",
    help: LS_HELP,
    arguments: &[
        IMAGE_WORD,
        Argument::OptionalWord {
            name: PATH,
            help: "The path of the directory or the file in the image",
        },
        VIEW_WORD,
    ],
};

const DU_HELP: &str =
    "Prints a line for each entry of the directory at PATH, or for the file there: how many blocks it reaches,
each counted once, how many of these are not bad and are reached by no version and no checkpoint but the
one of VIEW, and its path. The entry with most blocks comes first, and those with as many are in byte order
of their names. The last line has both numbers of all together, each block counted once and those of the
directory itself too, and total. Without PATH it is the root. PATH begins with a slash, and VIEW with @ or =,
so either may stand alone; they are as of get. Nothing is written to IMAGE.

Status: 0 it is printed; 1 IMAGE cannot be read, the output failed, or memory; 2 the words; 3 IMAGE
holds no image, or its mount was refused; 4 it was refused, told as uffs: ENOENT 1.

Example: uffs du disk.image /site
         uffs du disk.image @5";

pub(crate) const DU_COMMAND: Subcommand = Subcommand {
    name: "du",
    about: "Prints how many blocks what stands in a directory takes",
    help: DU_HELP,
    arguments: &[
        IMAGE_WORD,
        Argument::OptionalWord {
            name: PATH,
            help: "The path of the directory or the file in the image",
        },
        VIEW_WORD,
    ],
};

const HISTORY_HELP: &str =
    "Prints what stands at PATH in the first kept version, in each in which something else stands there than
in the version before, and in each checkpoint: the serial, with * before the present version, or = and the
name, and then file and its length in bytes, dir and how many entries it has, or none. A file with other
bytes is something else, and so is a directory below which something differs. PATH is as of get. Nothing
is written to IMAGE.

Status: 0 it is printed; 1 IMAGE cannot be read, the output failed, or memory; 2 the words; 3 IMAGE
holds no image, or its mount was refused; 4 it was refused, told as uffs: ENOENT 1 where nothing stands
at PATH in any of them.

Example: uffs history disk.image /site/index.html";

pub(crate) const HISTORY_COMMAND: Subcommand = Subcommand {
    name: "history",
    about: "Prints what stood at a path, by the versions that changed it",
    help: HISTORY_HELP,
    arguments: &[
        IMAGE_WORD,
        Argument::Word {
            name: PATH,
            help: "The path in the image",
        },
    ],
};

const DIFF_HELP: &str =
    "Prints a line for each path at which the tree of VIEW and that of OTHER differ: - before what went,
~ before a file with other bytes, and then + before what came. What went and what came are told as
tree tells them. Without OTHER it is the present version, and without VIEW the version before that; @5
is the version of serial 5, and =name a checkpoint. Nothing is written to IMAGE.

Status: 0 it is printed, whatever differs; 1 IMAGE cannot be read, the output failed, or memory; 2
the words; 3 IMAGE holds no image, or its mount was refused; 4 it was refused, told as
uffs: NOSUCHVERSION 20, or without VIEW as undo is; 5 it is printed and something differs, with
--exit-code.

Example: uffs diff disk.image
         uffs diff disk.image =before @5";

pub(crate) const DIFF_COMMAND: Subcommand = Subcommand {
    name: "diff",
    about: "Prints what differs between two trees of an image",
    help: DIFF_HELP,
    arguments: &[
        IMAGE_WORD,
        VIEW_WORD,
        Argument::OptionalWord {
            name: OTHER,
            help: "The version or the checkpoint that it is compared with",
        },
        Argument::Flag {
            name: "exit-code",
            help: "Status 5 where the trees differ",
        },
    ],
};
