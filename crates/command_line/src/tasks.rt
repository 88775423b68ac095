//! A job of the program.

/// A call that moves or changes the history of an image, synced then.
#[derive(Clone, Copy, Debug, PartialEq, Eq)]
pub enum HistoryCall {
    /// Versions before become the present one, step by step.
    Undo,
    /// Versions after become the present one, step by step.
    Redo,
    /// The version of a serial becomes the present one.
    Goto,
    /// The tree of a checkpoint becomes the present one.
    Rollback,
    /// The present tree is kept under a name.
    Checkpoint,
    /// A checkpoint is given up.
    RemoveCheckpoint,
    /// The oldest versions are dropped.
    Forget,
    /// The fewest of the oldest versions are dropped that leave so many blocks free.
    ForgetFree,
}

/// What is to be done.
#[derive(Clone, Copy, Debug, PartialEq, Eq)]
pub enum Task {
    /// An image is made.
    Format,
    /// A script is run on an image.
    Run,
    /// Files of the host are put into an image.
    Put,
    /// The history of an image is moved or changed.
    History(HistoryCall),
    /// The data blocks of an image that nothing reaches are erased.
    Trim,
    /// A file of an image is put into a file of the host.
    Get,
    /// The bytes of a file of an image are printed.
    Cat,
    /// All that stands in an image is told.
    Tree,
    /// The entries of a directory of an image are told, or a file.
    List,
    /// How many blocks the entries of a directory of an image take is told, or a file.
    Usage,
    /// What stood at a path of an image in its versions and checkpoints is told.
    PathHistory,
    /// What differs between two trees of an image is told.
    Diff,
    /// What differs between the present version of an image and the one before it is told.
    LastChange,
    /// The versions and the checkpoints of an image are told, with their sizes.
    Versions,
    /// An image is mounted.
    Check,
    /// The line `log` is run on an image.
    Log,
    /// The line `df` is run on an image.
    Df,
    /// What each block of an image is is printed.
    Map,
    /// It is put into a file of the host, as a page of HTML.
    MapPage,
    /// A script is run on a flash in memory.
    Memory,
    /// A script is run on the part of a driver in another process.
    Serve,
    /// A part in a flat file is made.
    FormatPart,
    /// A script is run on a part in place in a flat file.
    ServePart,
    /// An image is written as a part in a flat file.
    ToPart,
    /// A part in a flat file is written as an image.
    FromPart,
    /// An image is written as the bytes of a serial NOR part.
    ToRaw,
    /// The bytes of a serial NOR part are written as an image.
    FromRaw,
    /// What brings the tree of an image to that of another one is told.
    Update,
    /// An image is made of a folder of the host.
    Create,
    /// The history of an image is copied to a new one.
    Copy,
    /// An archive of what stands in an image is printed.
    Tar,
    /// The archive on the input is put into an image.
    Untar,
    /// What refusals mean is told.
    Explain,
    /// What can be asked for is told, or by one word.
    Help,
    /// The program and its version are told.
    Version,
}

/// A task with what it is to be done on.
#[derive(Clone, Copy, Debug, PartialEq, Eq)]
pub struct Job<'a> {
    /// What is to be done.
    pub command: Task,
    /// The file of the image; none for a part, `memory`, `serve`, `explain`, `help` and `version`.
    pub image: Option<&'a str>,
    /// Bytes of a page.
    pub page: u32,
    /// Whether a word gives how many bytes a page has.
    pub is_page_given: bool,
    /// Pages of a block.
    pub pages: u32,
    /// Whether a word gives how many pages a block has.
    pub is_pages_given: bool,
    /// Blocks of the flash.
    pub blocks: u32,
    /// Whether a word gives how many blocks.
    pub is_blocks_given: bool,
    /// Versions that are kept.
    pub history: u32,
    /// Whether a word gives how many versions.
    pub is_history_given: bool,
    /// The name under which a driver answers; none where none is named.
    pub answers: Option<&'a str>,
    /// The name under which a driver is given its orders; none where none is named.
    pub orders: Option<&'a str>,
    /// The flat file in which a part is formatted or served; none where none is named.
    pub part: Option<&'a str>,
    /// The number of a refusal or its word; none where none is named.
    pub refusal: Option<&'a str>,
    /// How many steps, how many versions, or how many blocks; 1 where no word gives it.
    pub count: u32,
    /// The name of a checkpoint; none where none is named.
    pub checkpoint: Option<&'a str>,
    /// The serial of a version; none where none is named.
    pub serial: Option<&'a str>,
    /// The word of the program of which help tells; none where none is named.
    pub word: Option<&'a str>,
    /// Whether the status tells that trees differ.
    pub exit_code: bool,
    /// Whether a script ends at its first line that is refused.
    pub stop: bool,
    /// The path in the image; none where none is named.
    pub path: Option<&'a str>,
    /// The file of the host, or that of a part which is made of an image or becomes one, or of its bytes,
    /// or that of a page, or that of a second image; none where none is named.
    pub file: Option<&'a str>,
    /// The view of the image; none where none is named.
    pub view: Option<&'a str>,
    /// The view that it is compared with; none where none is named.
    pub other: Option<&'a str>,
    /// Whether progress is told.
    pub progress: bool,
    /// Whether what stands below the path and is not put is removed.
    pub mirror: bool,
    /// Whether links are left out.
    pub skip_links: bool,
    /// Whether what is whole of a damaged image is copied.
    pub salvage: bool,
    /// Whether of a file that two trees have only what differs is written.
    pub changes: bool,
}
