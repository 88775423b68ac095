//! The words of `uffs` that make the bytes of a serial NOR part of an image, and back.
use crate::argument::Argument;
use crate::names::FILE;
use crate::shared_arguments::IMAGE_WORD;
use crate::subcommand::Subcommand;

const RAW_HELP: &str =
    "FILE is the bytes of a serial NOR part, as docs/format.md lays them out: 8192 for each block of 16 pages,
the layout `sure`, or 4096 for each sector of a block of 31 pages, 46, 62 and so on, the layout `dense`. It
is written whole or not at all: as FILE.new, which is renamed. A file that is there is replaced. It does not
tell which blocks are worn. Nothing is printed, and nothing is written to IMAGE.

Status: 0 it is written; 1 IMAGE cannot be read, FILE cannot be written, or memory; 2 the words; 3
IMAGE holds no image, or one of other sizes than pages of 256 bytes, as many in a block as a layout has,
told as uffs: BADGEOMETRY 28.

Example: uffs raw disk.image chip.bin";

pub(crate) const RAW_COMMAND: Subcommand = Subcommand {
    name: "raw",
    about: "Writes an image as the bytes of a serial NOR part",
    help: RAW_HELP,
    arguments: &[
        IMAGE_WORD,
        Argument::Word {
            name: FILE,
            help: "The file of the bytes",
        },
    ],
};

const FROM_RAW_HELP: &str =
    "IMAGE is written whole or not at all: as IMAGE.new, which is renamed. A file that is there is
replaced. It has all pages of the part, and tells no block as worn. K tells the layout: 16 pages of a block
are `sure`, 8192 bytes of FILE; 31, 46, 62 and so on are `dense`, 4096 for each of 2, 3, 4 or more sectors.
The number of blocks is that of FILE, or N: then it has the first N blocks of FILE, and what comes after
them is not looked at, as the rest of the chip in a dump of it. Nothing is printed, and nothing is written
to FILE.

Status: 0 it is written; 1 FILE cannot be read, IMAGE cannot be written, or memory; 2 the words; 3 P is
not 256, no layout has K pages in a block, FILE is not 16 or more whole blocks, N is fewer, or there are
more than 67108864 bytes of pages, or FILE has not N, told as uffs: BADGEOMETRY 28.

Example: uffs from-raw chip.bin disk.image
         uffs from-raw chip.bin disk.image --pages 31
         uffs from-raw dump.bin disk.image --blocks 306";

pub(crate) const FROM_RAW_COMMAND: Subcommand = Subcommand {
    name: "from-raw",
    about: "Writes the bytes of a serial NOR part as an image",
    help: FROM_RAW_HELP,
    arguments: &[
        Argument::Word {
            name: FILE,
            help: "The file of the bytes",
        },
        IMAGE_WORD,
        Argument::NumberOption {
            name: "page",
            shown: "P",
            help: "Bytes of a page, which are 256 [default: 256]",
        },
        Argument::NumberOption {
            name: "pages",
            shown: "K",
            help: "Pages of a block, which tell the layout [default: 16]",
        },
        Argument::NumberOption {
            name: "blocks",
            shown: "N",
            help: "Blocks, the first ones of FILE [default: all of it]",
        },
    ],
};
