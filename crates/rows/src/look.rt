//! What a row says of the flash after its lines.
use crate::error::RowError;

/// A line of a row that looks at the flash after the lines of its script.
#[derive(Clone, Copy)]
pub struct Look<'a> {
    /// The line before its colon, by which it is told.
    pub key: &'a str,
    pub claim: Claim<'a>,
}

/// What a row says of the flash.
#[derive(Clone, Copy)]
pub enum Claim<'a> {
    /// The page has data that begin so, in hexadecimal digits, with zeros to its end.
    Data { page: u32, digits: &'a str },
    /// The page is erased.
    Erased { page: u32 },
    /// The page is unreadable.
    Unreadable { page: u32 },
    /// All pages of which no other line speaks are erased.
    OthersErased,
    /// The newest record has this sequence and begins on this page.
    Newest { sequence: u64, page: u32 },
    /// Exactly these blocks are used, parted by spaces. The system tells it, so that it is looked at
    /// where one is at hand.
    Used { blocks: &'a str },
}

impl<'a> Look<'a> {
    /// Reads a line of a row, parted at its colon; none where it says nothing of the flash.
    pub fn read(key: &'a str, value: &'a str) -> Result<Option<Look<'a>>, RowError> {
        let claim = match key {
            "other pages" => others_of(value),
            "newest" => newest_of(value),
            "used" => Some(Claim::Used { blocks: value }),
            _ => match key.strip_prefix("page ") {
                Some(page) => page_of(page, value),
                None => return Ok(None),
            },
        };
        match claim {
            Some(claim) => Ok(Some(Look { key, claim })),
            None => Err(RowError::Layout),
        }
    }
}

/// `erased`.
fn others_of<'a>(value: &str) -> Option<Claim<'a>> {
    match value {
        "erased" => Some(Claim::OthersErased),
        _ => None,
    }
}

/// `SEQUENCE at PAGE`.
fn newest_of<'a>(value: &str) -> Option<Claim<'a>> {
    let (sequence, page) = value.split_once(" at ")?;
    Some(Claim::Newest {
        sequence: sequence.parse().ok()?,
        page: page.parse().ok()?,
    })
}

/// What is said of a page: `erased`, `unreadable`, or the bytes that it begins with.
fn page_of<'a>(page: &str, value: &'a str) -> Option<Claim<'a>> {
    let page = page.parse::<u32>().ok()?;
    match value {
        "erased" => Some(Claim::Erased { page }),
        "unreadable" => Some(Claim::Unreadable { page }),
        digits => Some(Claim::Data { page, digits }),
    }
}
