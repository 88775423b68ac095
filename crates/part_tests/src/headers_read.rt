//! Headers of archives that are read, and each refusal. They are changed so that the sum stays, where it is
//! to stay.
use fs_types::Path;
use std::alloc::Global;
use std::process::Abort;
use std::test::Fail;
use tar_format::{
    Header, HeaderFault, Member, name_told, path_of_name, read_header, spell_header, text_of,
};

/// The header of the file `a` of five bytes, with other bytes at some places.
fn changed(rt: &impl Abort, alloc: Global, changes: &[(usize, u8)]) -> Result<[u8; 512], Fail> {
    let path = Path::parse(alloc, b"/a")?;
    let header = spell_header(alloc, &path, Member::File(5))?;
    let mut block = [0; 512];
    assert_eq!(rt; header.len(), 512);
    block.copy_from_slice(&header);
    for (place, byte) in changes {
        let place = *place;
        assert!(rt; place < 512);
        block[place] = *byte;
    }
    Ok(block)
}

#[test]
fn headers_are_read(rt: HostRuntime) -> Result<(), Fail> {
    let rows: [(&[(usize, u8)], Result<Header, HeaderFault>); 15] = [
        (&[], Ok(Header::File(5))),
        // Magic and checksum; the checksum is no number; the size is none, with the sum as it was.
        (&[(257, b'v')], Err(HeaderFault::Magic)),
        (&[(0, b'b')], Err(HeaderFault::Checksum)),
        (&[(148, b'x')], Err(HeaderFault::NotOctal)),
        (&[(133, b'8'), (134, b'-')], Err(HeaderFault::NotOctal)),
        // 16,777,217 bytes.
        (
            &[(126, b'1'), (134, b'1'), (0, b'd')],
            Err(HeaderFault::TooLong),
        ),
        // Typeflags: NUL and 7 for a file, 5, 2 and 1, S, x and g, and L.
        (&[(156, 0), (0, 145)], Ok(Header::File(5))),
        (&[(156, b'7'), (0, b'Z')], Ok(Header::File(5))),
        (&[(156, b'5'), (0, b'\\')], Ok(Header::Folder)),
        (&[(156, b'2'), (0, b'_')], Ok(Header::Other(b'2', 0))),
        (&[(156, b'1'), (0, b'`')], Ok(Header::Other(b'1', 0))),
        (&[(156, b'S'), (0, b'>')], Ok(Header::Other(b'S', 5))),
        (&[(156, b'x'), (0, 25)], Ok(Header::Extended(5))),
        (&[(156, b'g'), (0, b'*')], Ok(Header::Global(5))),
        (&[(156, b'L'), (0, b'E')], Ok(Header::LongName(5))),
    ];
    for (changes, wanted) in rows {
        let block = changed(&rt, rt.alloc(), changes)?;
        assert_eq!(rt; read_header(&block, None), wanted, "at {changes:?}");
    }
    assert_eq!(rt; read_header(&[0; 512], None), Ok(Header::Zeros));
    // GNU's magic is `ustar` and two spaces, which are 32 less than NUL and two digits. Where POSIX has the
    // prefix GNU has times.
    let block = changed(
        &rt,
        rt.alloc(),
        &[(262, b' '), (263, b' '), (264, 0), (345, b'1'), (0, b'P')],
    )?;
    assert_eq!(rt; read_header(&block, None), Ok(Header::File(5)));
    let name = name_told(rt.alloc(), &block)?;
    assert_eq!(rt; name.as_slice(), b"P".as_slice());
    Ok(())
}

// A size that an extended header told goes before that of a header, but for what tells of a member itself.
#[test]
fn told_sizes_are_read(rt: HostRuntime) -> Result<(), Fail> {
    let rows: [(&[(usize, u8)], u64, Result<Header, HeaderFault>); 7] = [
        (&[], 7, Ok(Header::File(7))),
        (&[], 16_777_216, Ok(Header::File(16_777_216))),
        (&[], 16_777_217, Err(HeaderFault::TooLong)),
        (&[(133, b'8'), (134, b'-')], 7, Ok(Header::File(7))),
        (&[(156, b'5'), (0, b'\\')], 7, Ok(Header::Folder)),
        (&[(156, b'x'), (0, 25)], 7, Ok(Header::Extended(5))),
        (&[(156, b'L'), (0, b'E')], 7, Ok(Header::LongName(5))),
    ];
    for (changes, size, wanted) in rows {
        let block = changed(&rt, rt.alloc(), changes)?;
        assert_eq!(rt;
            read_header(&block, Some(size)),
            wanted,
            "at {changes:?} and {size}"
        );
    }
    Ok(())
}

// How many names the path has, or the number of the refusal; and texts that end at a NUL.
#[test]
fn names_are_read(rt: HostRuntime) -> Result<(), Fail> {
    let rows: [(bool, &[u8], Result<usize, u8>); 15] = [
        (true, b"./", Ok(0)),
        (true, b"a/", Ok(1)),
        (true, b"./a/b/", Ok(2)),
        (false, b"a", Ok(1)),
        (false, b"./a", Ok(1)),
        (false, b"a/", Err(7)),
        (false, b"./", Err(7)),
        (true, b"", Err(7)),
        (true, b"/", Err(7)),
        (true, b".", Err(7)),
        (false, b"/a", Err(7)),
        (false, b"../a", Err(7)),
        (true, b"a//", Err(7)),
        (true, b"././a", Err(7)),
        (false, b"a/a/a/a/a/a/a/a/a/a/a/a/a/a/a/a/a", Err(8)),
    ];
    for (folder, name, wanted) in rows {
        let answer = match path_of_name(rt.alloc(), folder, name) {
            Ok(path) => Ok(path.names().len()),
            Err(fault) => Err(fault.number()),
        };
        assert_eq!(rt; answer, wanted, "at {name:?}");
    }
    assert_eq!(rt; text_of(b"ab\0c"), b"ab".as_slice());
    assert_eq!(rt; text_of(b"ab"), b"ab".as_slice());
    Ok(())
}
