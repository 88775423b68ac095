//! The words of `uffs` that make a part in a flat file of an image, and back.
use crate::argument::Argument;
use crate::names::FILE;
use crate::shared_arguments::IMAGE_WORD;
use crate::subcommand::Subcommand;

const TO_PART_HELP: &str =
    "FILE is written whole or not at all: as FILE.new, which is renamed. A file that is there is replaced.
It has the sizes of IMAGE and all its pages, and does not tell which blocks are worn. Nothing is
printed, and nothing is written to IMAGE.

Status: 0 it is written; 1 IMAGE cannot be read, FILE cannot be written, or memory; 2 the words; 3
IMAGE holds no image.

Example: uffs to-part disk.image disk.part";

pub(crate) const TO_PART_COMMAND: Subcommand = Subcommand {
    name: "to-part",
    about: "Writes an image as a part in a flat file",
    help: TO_PART_HELP,
    arguments: &[
        IMAGE_WORD,
        Argument::Word {
            name: FILE,
            help: "The flat file of the part",
        },
    ],
};

const FROM_PART_HELP: &str =
    "IMAGE is written whole or not at all: as IMAGE.new, which is renamed. A file that is there is
replaced. It has the sizes of the part and all its pages, and tells no block as worn. Nothing is
printed. FILE is claimed meanwhile, and stays as it is.

Status: 0 it is written; 1 FILE is not to be had or cannot be read, IMAGE cannot be written, or memory;
2 the words; 3 FILE holds no part.

Example: uffs from-part disk.part disk.image";

pub(crate) const FROM_PART_COMMAND: Subcommand = Subcommand {
    name: "from-part",
    about: "Writes a part in a flat file as an image",
    help: FROM_PART_HELP,
    arguments: &[
        Argument::Word {
            name: FILE,
            help: "The flat file of the part",
        },
        IMAGE_WORD,
    ],
};
