//! The names by which the words of a subcommand are read.

/// The name of the option that names the flat file of a part.
pub const PART: &str = "part";

/// The name of the argument that names the file of an image.
pub const IMAGE: &str = "IMAGE";

/// The name of the argument that is a path in an image.
pub const PATH: &str = "PATH";

/// The name of the argument that names a file of the host.
pub const FILE: &str = "FILE";

/// The name of the argument that is a view.
pub const VIEW: &str = "VIEW";

/// The name of the argument that is the view which another is compared with.
pub const OTHER: &str = "OTHER";

/// The name of the argument that names the stream of a driver's answers.
pub const ANSWERS: &str = "ANSWERS";

/// The name of the argument that names the stream of a driver's orders.
pub const ORDERS: &str = "ORDERS";

/// The name of the argument that is the number or the word of a refusal.
pub const REFUSAL: &str = "REFUSAL";

/// The name of the argument that says how many.
pub const COUNT: &str = "N";

/// The name of the option that says how many blocks are to be free.
pub const FREE: &str = "free";

/// The name of the argument that names a checkpoint.
pub const NAME: &str = "NAME";

/// The name of the argument that is the serial of a version.
pub const SERIAL: &str = "SERIAL";

/// The name of the argument that is a word of the program.
pub const WORD: &str = "WORD";
