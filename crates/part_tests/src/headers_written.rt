//! Headers of archives that are written, against bytes worked out by hand.
use fs_types::Path;
use std::alloc::{AllocError, Global};
use std::process::Abort;
use std::test::Fail;
use tar_format::{
    Header, Member, RoomFault, archive_end, has_room, name_told, padding, path_of_name,
    read_header, spell_header,
};

/// Bytes one after the other.
fn joined(alloc: Global, parts: &[&[u8]]) -> Result<Vec<u8>, AllocError> {
    let mut bytes = Vec::new(alloc);
    for part in parts {
        bytes.extend_from_slice(part)?;
    }
    Ok(bytes)
}

/// A block of 512 bytes as an array.
fn block_of(rt: &impl Abort, bytes: &[u8]) -> [u8; 512] {
    let mut block = [0; 512];
    assert_eq!(rt; bytes.len(), 512);
    block.copy_from_slice(bytes);
    block
}

/// What a header is of, its bytes one after the other, and what is read of it.
type Row = (
    &'static [u8],
    Member,
    &'static [&'static [u8]],
    Header,
    bool,
    Option<&'static [u8]>,
);

/// The first: 97 for `a`, 353 and twice 336 for mode, uid and gid, twice 528 for size and mtime, 53 for the
/// typeflag, 559 and 96 for magic and version, and 256 for the checksum: 3,142, which is 6106 in octal.
///
/// The second: the prefix is `x`, and the name has 100 bytes. 16,777,216 bytes are 100000000 in octal. The
/// sum is 120 for the prefix, 49 times 121, 47 and 50 times 122 for the name, 350 for the mode, 336 twice,
/// 529 and 528, 48 for the typeflag, 559, 96 and 256: 15,234, which is 35602 in octal.
const ROWS: [Row; 2] = [
    (
        b"/a",
        Member::Folder,
        &[
            b"a",
            &[0; 99],
            b"0000755\0",
            b"0000000\0",
            b"0000000\0",
            b"00000000000\0",
            b"00000000000\0",
            b"006106\0 ",
            b"5",
            &[0; 100],
            b"ustar\0",
            b"00",
            &[0; 247],
        ],
        Header::Folder,
        true,
        Some(b"a"),
    ),
    (
        b"/x/yyyyyyyyyyyyyyyyyyyyyyyyyyyyyyyyyyyyyyyyyyyyyyyyy/zzzzzzzzzzzzzzzzzzzzzzzzzzzzzzzzzzzzzzzzzzzzzzzzzz",
        Member::File(16_777_216),
        &[
            b"yyyyyyyyyyyyyyyyyyyyyyyyyyyyyyyyyyyyyyyyyyyyyyyyy/zzzzzzzzzzzzzzzzzzzzzzzzzzzzzzzzzzzzzzzzzzzzzzzzzz",
            b"0000644\0",
            b"0000000\0",
            b"0000000\0",
            b"00100000000\0",
            b"00000000000\0",
            b"035602\0 ",
            b"0",
            &[0; 100],
            b"ustar\0",
            b"00",
            &[0; 80],
            b"x",
            &[0; 166],
        ],
        Header::File(16_777_216),
        false,
        None,
    ),
];

#[test]
fn headers_are_written(rt: HostRuntime) -> Result<(), Fail> {
    for (text, member, parts, wanted, is_folder, named) in ROWS {
        let path = Path::parse(rt.alloc(), text)?;
        let block = spell_header(rt.alloc(), &path, member)?;
        let worked = joined(rt.alloc(), parts)?;
        assert_eq!(rt; block.as_slice(), worked.as_slice());
        let block = block_of(&rt, &block);
        assert_eq!(rt; read_header(&block, None), Ok(wanted));
        let name = name_told(rt.alloc(), &block)?;
        if let Some(named) = named {
            assert_eq!(rt; name.as_slice(), named);
        }
        assert_eq!(rt; path_of_name(rt.alloc(), is_folder, &name)?, path);
    }
    Ok(())
}

/// Two names of 50 bytes have 101 with the slash, which cuts them; of 155 and 100 bytes around a slash
/// there is room, and of more there is none.
#[test]
fn room(rt: HostRuntime) -> Result<(), Fail> {
    let five = b"/aaaaaaaaaaaaaaaaaaaaaaaaaaaaaaaaaaaaaaaaaaaaaaaaaaaaaaaaaaaaaaaa";
    let mut text = Vec::new(rt.alloc());
    for names in 1..=16usize {
        text.extend_from_slice(five)?;
        let path = Path::parse(rt.alloc(), &text)?;
        // Of `names` names of 64 bytes the last one is the name, and the prefix has at most 155.
        let room = names <= 3;
        assert_eq!(rt; has_room(rt.alloc(), &path)?, room, "of {names} names");
        let header = spell_header(rt.alloc(), &path, Member::Folder);
        assert_eq!(rt; header.is_ok(), room, "of {names} names");
        if !room {
            assert_eq!(rt; header.err(), Some(RoomFault::NoRoom));
        }
    }
    Ok(())
}

#[test]
fn padding_and_end(rt: HostRuntime) -> Result<(), Fail> {
    for (length, zeros) in [(0, 0), (1, 511), (511, 1), (512, 0), (513, 511)] {
        let padding = padding(length);
        assert_eq!(rt; padding.len(), zeros, "after {length} bytes");
        assert!(rt; padding.iter().all(|byte| *byte == 0));
    }
    assert_eq!(rt; archive_end().len(), 1024);
    assert!(rt; archive_end().iter().all(|byte| *byte == 0));
    Ok(())
}
