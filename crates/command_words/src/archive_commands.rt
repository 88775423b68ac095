//! The words of `uffs` that make an archive of what stands in an image, and put one into an image.
use crate::argument::Argument;
use crate::names::PATH;
use crate::shared_arguments::{IMAGE_WORD, VIEW_WORD};
use crate::subcommand::Subcommand;

const TAR_HELP: &str =
    "Prints an archive of all that stands in a tree, in the form ustar of POSIX: each directory and each
file in the order of tree, with modes 0755 and 0644, and owner and times 0, so that the same tree gives
the same bytes. VIEW is as of get. A path of over 100 bytes for which the form has no room is told, and
nothing is printed. Nothing is written to IMAGE.

Status: 0 it is printed; 1 IMAGE cannot be read, the output failed, or memory; 2 the words; 3 IMAGE
holds no image, or its mount was refused; 4 it was refused, told as uffs: NOSUCHVERSION 20, a path has
no room, told as uffs: ENAMETOOLONG 8: with the path, or the tree has too much, told as
uffs: TOOMANYLINES.

Example: uffs tar disk.image @5 | tar -tvf -
         uffs tar disk.image | gzip > disk.tar.gz";

pub(crate) const TAR_COMMAND: Subcommand = Subcommand {
    name: "tar",
    about: "Prints an archive of all that stands in an image",
    help: TAR_HELP,
    arguments: &[IMAGE_WORD, VIEW_WORD],
};

const UNTAR_HELP: &str =
    "Standard input is an archive in the form ustar of POSIX, or in GNU's with its long names. Its folders
and plain files are put below PATH as put puts those of a folder: all of it as one version, which is
synced. What else stands in it, as a link or a device, is refused with its name; with --skip-links it
is left out, and each is told. Modes, owners and times are not kept. Where anything is refused IMAGE
stays as it was. PATH is taken as it is typed; one with a % is spelled as in a script, where %25 is %
and %20 a space.

Status: 0 it is there; 1 IMAGE or the input cannot be read, the archive is broken or has something else
than folders and plain files, IMAGE cannot be written, or memory; 2 the words; 3 IMAGE holds no image,
or its mount was refused; 4 it was refused, told as uffs: EEXIST 4: with the path, or the archive has
over 268435456 bytes, told as uffs: TOOMANYLINES.

Example: tar -cf - -C ./site . | uffs untar disk.image /site --skip-links";

pub(crate) const UNTAR_COMMAND: Subcommand = Subcommand {
    name: "untar",
    about: "Puts the archive on standard input into an image, as one version",
    help: UNTAR_HELP,
    arguments: &[
        IMAGE_WORD,
        Argument::Word {
            name: PATH,
            help: "The path in the image below which it is put",
        },
        Argument::Flag {
            name: "skip-links",
            help: "Leaves out what is neither a folder nor a plain file, and tells each",
        },
    ],
};
