//! What a block is.
ghost use Rattle.std.specs.Prelude.{◌≡◌};
ghost use Rattle.block_usage.specs.HtmlPages.{class_of};
ghost use Rattle.block_usage.specs.MapTexts.{is_anchor, is_bad, is_free, is_kept, meaning_of, sign_of};

/// What a block of a flash is: the first of these that holds.
#[derive(Clone, Copy, Debug, PartialEq, Eq, Drop)]
pub enum BlockKind {
    /// The anchor that has the newest record.
    NewestAnchor,
    /// Another anchor.
    Anchor,
    /// In the list of bad blocks.
    Bad,
    /// Reached by the present version, and by nothing else.
    Present,
    /// Reached by the present version, and by another version or a checkpoint.
    Shared,
    /// Reached by another version.
    Other,
    /// Reached by a checkpoint.
    Checkpoint,
    /// Free, and some page of it is not erased.
    Stale,
    /// Free, and all its pages are erased.
    Blank,
}

impl BlockKind {
    /// The byte that stands for it.
    pub fn sign(self) -> u8
        ensures { result ≡ sign_of self }
    {
        match self {
            BlockKind::NewestAnchor => b'R',
            BlockKind::Anchor => b'A',
            BlockKind::Bad => b'X',
            BlockKind::Present => b'P',
            BlockKind::Shared => b'S',
            BlockKind::Other => b'V',
            BlockKind::Checkpoint => b'C',
            BlockKind::Stale => b'-',
            BlockKind::Blank => b'.',
        }
    }

    /// What the legend says of it.
    pub(crate) fn meaning(self) -> &'static [u8]
        ensures { result.now ≡ meaning_of self }
    {
        match self {
            BlockKind::NewestAnchor => b"anchor with the newest record",
            BlockKind::Anchor => b"another anchor",
            BlockKind::Bad => b"bad",
            BlockKind::Present => b"present version alone",
            BlockKind::Shared => b"present version and others",
            BlockKind::Other => b"other versions",
            BlockKind::Checkpoint => b"checkpoints alone",
            BlockKind::Stale => b"free, not erased",
            BlockKind::Blank => b"free, erased",
        }
    }

    /// The class of its cells on a page.
    pub(crate) fn class(self) -> &'static [u8]
        ensures { result.now ≡ class_of self }
    {
        match self {
            BlockKind::NewestAnchor => b"newest",
            BlockKind::Anchor => b"anchor",
            BlockKind::Bad => b"bad",
            BlockKind::Present => b"present",
            BlockKind::Shared => b"shared",
            BlockKind::Other => b"other",
            BlockKind::Checkpoint => b"checkpoint",
            BlockKind::Stale => b"stale",
            BlockKind::Blank => b"blank",
        }
    }

    pub(crate) fn is_anchor(self) -> bool
        ensures { result ≡ is_anchor self }
    {
        matches!(self, BlockKind::NewestAnchor | BlockKind::Anchor)
    }

    pub(crate) fn is_bad(self) -> bool
        ensures { result ≡ is_bad self }
    {
        matches!(self, BlockKind::Bad)
    }

    /// Whether a version or a checkpoint reaches it.
    pub(crate) fn is_kept(self) -> bool
        ensures { result ≡ is_kept self }
    {
        matches!(
            self,
            BlockKind::Present | BlockKind::Shared | BlockKind::Other | BlockKind::Checkpoint
        )
    }

    pub(crate) fn is_free(self) -> bool
        ensures { result ≡ is_free self }
    {
        matches!(self, BlockKind::Stale | BlockKind::Blank)
    }
}
