//! Why what stands at a name of the host is not put into an image.
use std::error::Error;
use std::fmt;

/// Why a source is not put into an image.
#[derive(Clone, Copy, Debug, PartialEq, Eq)]
pub enum SourceFault {
    /// It is missing, or cannot be read.
    Unreadable,
    /// It is a link.
    Link,
    /// It is neither a folder nor a plain file.
    Special,
    /// It is the image into which it is to be put, or stands where its new file is made.
    Image,
    /// It is a folder of over 1,024 entries.
    Crowded,
    /// It is a file of over 16,777,216 bytes.
    TooBig,
    /// A name is not lawful.
    BadName,
    /// Its name has over 64 bytes, or its path over 16 names.
    TooLong,
}

impl SourceFault {
    /// What it means, in words.
    fn text(self) -> &'static str {
        match self {
            SourceFault::Unreadable => "it cannot be read",
            SourceFault::Link => "it is a link",
            SourceFault::Special => "it is neither a folder nor a plain file",
            SourceFault::Image => "it is the image, or in the place of its new file",
            SourceFault::Crowded => "it has over 1024 entries",
            SourceFault::TooBig => "it has over 16777216 bytes",
            SourceFault::BadName => "its name is not lawful",
            SourceFault::TooLong => "its name has over 64 bytes, or its path over 16 names",
        }
    }
}

impl fmt::Display for SourceFault {
    fn fmt<W: fmt::Write>(&self, f: &mut fmt::Formatter<W>) -> fmt::Result {
        f.write_str(self.text())
    }
}

impl Error for SourceFault {}
