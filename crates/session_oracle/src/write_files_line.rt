//! The line of a call that scripts have no line for: many files of one directory.
use fs_types::{Bytes, Call, Fault, Name, NamedFile, Path, Sequence};
use std::alloc::Global;

/// The call that `DIRECTORY NAME DATA NAME DATA ..` asks, the words after `files`. [`Fault::Invalid`]
/// where a name has no data, or the data are no pairs of digits.
pub fn write_files_of(alloc: Global, words: &str) -> Result<Call, Fault> {
    let (directory, files) = words.split_once(' ').unwrap_or((words, ""));
    Ok(Call::WriteFiles {
        directory: Path::parse(alloc, directory.as_bytes())?,
        files: files_of(alloc, files)?,
    })
}

/// The files of names and data in turn.
fn files_of(alloc: Global, words: &str) -> Result<Sequence<NamedFile>, Fault> {
    let mut files = Sequence::new(alloc);
    let mut name = None;
    for word in words.split(' ') {
        match name.take() {
            Some(name) => files.push(file_of(alloc, name, word)?)?,
            None => name = Some(word),
        }
    }
    match name {
        None | Some("") => Ok(files),
        Some(_) => Err(Fault::Invalid),
    }
}

fn file_of(alloc: Global, name: &str, data: &str) -> Result<NamedFile, Fault> {
    Ok(NamedFile {
        name: Name::parse(alloc, name.as_bytes())?,
        bytes: bytes_of(alloc, data)?,
    })
}

/// The bytes of pairs of hexadecimal digits; `-` has none.
fn bytes_of(alloc: Global, data: &str) -> Result<Bytes, Fault> {
    if data == "-" {
        return Ok(Bytes::new(alloc));
    }
    let bytes = hex::decode(alloc, data.as_bytes()).map_err(|_| Fault::Invalid)?;
    Ok(Bytes::from_vec(bytes))
}
