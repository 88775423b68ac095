//! The words of `uffs` that move or change the history of an image, and the one that erases what it does not
//! reach.
use crate::argument::Argument;
use crate::names::{FREE, SERIAL};
use crate::shared_arguments::{IMAGE_WORD, NAME_WORD, STEPS_COUNT};
use crate::subcommand::Subcommand;

const UNDO_HELP: &str =
    "Goes back N versions, one where N is left out: all these steps or none. It is synced. Nothing is
printed. Where it is refused IMAGE stays as it was. `redo` takes it back, up to the next change.

Status: 0 it is done; 1 IMAGE cannot be read or written, or memory; 2 the words; 3 IMAGE holds no
image, or its mount was refused; 4 it was refused, told as uffs: NOTHINGTOUNDO 17.

Example: uffs undo disk.image 2";

pub(crate) const UNDO_COMMAND: Subcommand = Subcommand {
    name: "undo",
    about: "Goes back to a version before the present one",
    help: UNDO_HELP,
    arguments: &[IMAGE_WORD, STEPS_COUNT],
};

const REDO_HELP: &str =
    "Goes forward N versions, one where N is left out: all these steps or none. It is synced. Nothing is
printed. Where it is refused IMAGE stays as it was.

Status: as of undo.

Example: uffs redo disk.image";

pub(crate) const REDO_COMMAND: Subcommand = Subcommand {
    name: "redo",
    about: "Goes forward again after an undo",
    help: REDO_HELP,
    arguments: &[IMAGE_WORD, STEPS_COUNT],
};

const GOTO_HELP: &str =
    "The kept version of this serial becomes the present one, as by so many steps of `undo` or `redo`. It
is synced. Nothing is printed. Where it is refused IMAGE stays as it was. `log` prints the serials.

Status: as of undo.

Example: uffs goto disk.image 5";

pub(crate) const GOTO_COMMAND: Subcommand = Subcommand {
    name: "goto",
    about: "Goes to the version of a serial",
    help: GOTO_HELP,
    arguments: &[
        IMAGE_WORD,
        Argument::Word {
            name: SERIAL,
            help: "The serial of the version",
        },
    ],
};

const ROLLBACK_HELP: &str =
    "The tree of the checkpoint NAME becomes the present one, as a new version, which `undo` takes back.
It is synced. Nothing is printed. Where it is refused IMAGE stays as it was. NAME is spelled as in a
script.

Status: as of undo.

Example: uffs rollback disk.image before";

pub(crate) const ROLLBACK_COMMAND: Subcommand = Subcommand {
    name: "rollback",
    about: "Goes back to a checkpoint, as a new version",
    help: ROLLBACK_HELP,
    arguments: &[IMAGE_WORD, NAME_WORD],
};

const CHECKPOINT_HELP: &str =
    "The present tree is kept under NAME until `rmcheckpoint` gives it up. It is synced. Nothing is
printed. Where it is refused IMAGE stays as it was. NAME is spelled as in a script.

Status: as of undo.

Example: uffs checkpoint disk.image before";

pub(crate) const CHECKPOINT_COMMAND: Subcommand = Subcommand {
    name: "checkpoint",
    about: "Keeps the present tree under a name",
    help: CHECKPOINT_HELP,
    arguments: &[IMAGE_WORD, NAME_WORD],
};

const RMCHECKPOINT_HELP: &str =
    "The checkpoint NAME is given up; the present tree and the versions stay. It is synced. Nothing is
printed. Where it is refused IMAGE stays as it was. NAME is spelled as in a script.

Status: as of undo.

Example: uffs rmcheckpoint disk.image before";

pub(crate) const RMCHECKPOINT_COMMAND: Subcommand = Subcommand {
    name: "rmcheckpoint",
    about: "Gives up a checkpoint",
    help: RMCHECKPOINT_HELP,
    arguments: &[IMAGE_WORD, NAME_WORD],
};

const FORGET_HELP: &str =
    "The N oldest versions before the present one are dropped, so that no `undo` comes to them; or with
--free the fewest that leave so many blocks free, as `df` shows them, and none where these are free.
It is synced. Nothing is printed. Where it is refused IMAGE stays as it was, as where all versions
before the present one are not enough (uffs: ENOSPC 15).

Status: as of undo.

Example: uffs forget disk.image 3
Example: uffs forget disk.image --free 8";

pub(crate) const FORGET_COMMAND: Subcommand = Subcommand {
    name: "forget",
    about: "Drops the oldest versions",
    help: FORGET_HELP,
    arguments: &[
        IMAGE_WORD,
        Argument::Count {
            help: "How many versions, where not --free",
        },
        Argument::NumberOption {
            name: FREE,
            shown: "BLOCKS",
            help: "How many blocks are to be free, where not N",
        },
    ],
};

const TRIM_HELP: &str =
    "The data blocks that no version and no checkpoint reaches are erased, so that IMAGE packs small, and
has few pages to be programmed into a part. The tree, the versions and what log and df print stay. It is
synced. Nothing is printed. Where it is refused IMAGE stays as it was.

Status: as of undo.

Example: uffs trim disk.image";

pub(crate) const TRIM_COMMAND: Subcommand = Subcommand {
    name: "trim",
    about: "Erases the data blocks that nothing reaches",
    help: TRIM_HELP,
    arguments: &[IMAGE_WORD],
};
