//! Records of extended headers, by the rules of POSIX.1-2017 under `pax`.
use fs_types::Bytes;
use std::test::Fail;
use tar_format::{Extension, RecordFault, with_records};

/// Whether a header is of all members, its records, and the name, the size and the refused keyword that they
/// tell.
type Told = (
    bool,
    &'static [u8],
    Option<&'static [u8]>,
    Option<u64>,
    Option<&'static [u8]>,
);

/// What records tell.
const TOLD: [Told; 13] = [
    (false, b"", None, None, None),
    (false, b"12 path=a/b\n", Some(b"a/b"), None, None),
    (false, b"13 path=a\n=b\n", Some(b"a\n=b"), None, None),
    // A later record goes before an earlier one, and one of no bytes takes it back.
    (false, b"10 path=a\n10 path=b\n", Some(b"b"), None, None),
    (
        false,
        b"10 path=a\n9 size=5\n8 path=\n",
        None,
        Some(5),
        None,
    ),
    (false, b"11 size=20\n8 size=\n", None, None, None),
    // What is passed over.
    (
        false,
        b"13 mtime=1.5\n16 SCHILY.ino=5\n38 hdrcharset=ISO-IR 10646 2000 UTF-8\n14 linkpath=b\n",
        None,
        None,
        None,
    ),
    (true, b"13 mtime=1.5\n15 comment=one\n", None, None, None),
    // What is refused: the first of it is told.
    (
        false,
        b"22 GNU.sparse.major=1\n13 charset=b\n10 path=a\n",
        Some(b"a"),
        None,
        Some(b"GNU.sparse.major"),
    ),
    (
        false,
        b"21 hdrcharset=BINARY\n",
        None,
        None,
        Some(b"hdrcharset"),
    ),
    (true, b"12 path=a/b\n", None, None, Some(b"path")),
    (true, b"9 size=5\n", None, None, Some(b"size")),
    (true, b"14 linkpath=b\n", None, None, Some(b"linkpath")),
];

/// The bytes of a text, if there is one.
fn text_of(text: &Option<Bytes>) -> Option<&[u8]> {
    match text {
        Some(bytes) => Some(bytes.as_slice()),
        None => None,
    }
}

#[test]
fn records_are_read(rt: HostRuntime) -> Result<(), Fail> {
    for (global, records, path, size, refused) in TOLD {
        let told = with_records(rt.alloc(), global, Extension::nothing(), records);
        match told {
            Ok(told) => {
                assert_eq!(rt; text_of(&told.path), path, "the name by {records:?}");
                assert_eq!(rt; told.size, size, "the size by {records:?}");
                assert_eq!(rt; text_of(&told.refused), refused, "refused by {records:?}");
            }
            Err(fault) => assert_eq!(rt; Ok(()), Err(fault), "at {records:?}"),
        }
    }
    Ok(())
}

#[test]
fn broken_records_are_refused(rt: HostRuntime) -> Result<(), Fail> {
    let rows: [(&[u8], RecordFault); 11] = [
        // A length that is not its record's, or none.
        (b"13 path=a/b\n", RecordFault::Record),
        (b"11 path=a/b\n", RecordFault::Record),
        (b"12 path=a/b\n\0", RecordFault::Record),
        (b"path=a/b\n", RecordFault::Record),
        (b"-12 path=a/b\n", RecordFault::Record),
        (b"0 path=a/b\n", RecordFault::Record),
        (b"00000000000000000012 path=a/b\n", RecordFault::Record),
        // No equals sign, no newline.
        (b"7 path\n", RecordFault::Record),
        (b"11 path=a/b", RecordFault::Record),
        // A size that is no number.
        (b"9 size=x\n", RecordFault::Size),
        (b"29 size=18446744073709551616\n", RecordFault::Size),
    ];
    for (records, wanted) in rows {
        match with_records(rt.alloc(), false, Extension::nothing(), records) {
            Ok(_) => assert_eq!(rt; Ok(()), Err(wanted), "at {records:?}"),
            Err(fault) => assert_eq!(rt; fault, wanted, "at {records:?}"),
        }
    }
    Ok(())
}
