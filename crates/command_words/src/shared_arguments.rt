//! Arguments that several subcommands have.
use crate::argument::Argument;
use crate::names::{IMAGE, NAME, VIEW};

/// The file of an image.
pub(crate) const IMAGE_WORD: Argument = Argument::Word {
    name: IMAGE,
    help: "The file of the image",
};

/// The view of an image.
pub(crate) const VIEW_WORD: Argument = Argument::OptionalWord {
    name: VIEW,
    help: "The version, as @5, or the checkpoint, as =name",
};

/// The size of a page of an image that is made.
pub(crate) const PAGE_OPTION: Argument = Argument::NumberOption {
    name: "page",
    shown: "P",
    help: "Bytes of a page: 256, 512, 1024, 2048 or 4096 [default: 256]",
};

/// The size of a block of an image that is made.
pub(crate) const PAGES_OPTION: Argument = Argument::NumberOption {
    name: "pages",
    shown: "K",
    help: "Pages of a block, which has 4096 to 262144 bytes [default: 16]",
};

/// How many versions are kept of an image that is made.
pub(crate) const HISTORY_OPTION: Argument = Argument::NumberOption {
    name: "history",
    shown: "H",
    help: "Versions that are kept, 2 to 128 [default: 8]",
};

/// The name of a checkpoint.
pub(crate) const NAME_WORD: Argument = Argument::Word {
    name: NAME,
    help: "The name of the checkpoint",
};

/// How many steps in the history.
pub(crate) const STEPS_COUNT: Argument = Argument::Count {
    help: "How many steps [default: 1]",
};
