//! The bytes of nodes.
use node_format::{BodyNode, Entries, Place, body_node, empty_directory, node_size};
use std::alloc::{AllocError, Global};
use std::test::Fail;

const EMPTY: [u8; 16] = *b"UFNE\0\0\0\0\0\0\0\0\0\0\0\0";

// A directory with a directory `a` in block 9.
const WITH_DIR: [u8; 27] = [
    0x55, 0x46, 0x4e, 0x45, 1, 0, 0, 0, 0x0b, 0, 0, 0, 0, 0, 0, 0, 2, 1, 0x61, 9, 0, 0, 0, 0, 0, 0,
    0,
];

// The bytes of a node of so many directories, named `0`, `1` and on by their codes, each in block 9,
// with a fourth field.
fn node_of(alloc: Global, magic: &[u8], count: u8, fourth: u32) -> Result<Vec<u8>, AllocError> {
    let mut out = Vec::from_slice(alloc, magic)?;
    out.extend_from_slice(&u32::from(count).to_le_bytes())?;
    out.extend_from_slice(&(u32::from(count) * 11).to_le_bytes())?;
    out.extend_from_slice(&fourth.to_le_bytes())?;
    for number in 0..count {
        let code = b'0'.saturating_add(number);
        out.extend_from_slice(&[2, 1, code, 9, 0, 0, 0, 0, 0, 0, 0])?;
    }
    Ok(out)
}

// What is read of such a node: whether it is one of a chain, how many entries it has, and the block of
// the node after it.
fn read(
    alloc: Global,
    magic: &[u8],
    count: u8,
    fourth: u32,
) -> Result<Option<(bool, usize, u32)>, AllocError> {
    let bytes = node_of(alloc, magic, count, fourth)?;
    let node = Entries::of(&bytes);
    Ok(node.map(|n| (n.is_chained(), n.list().len(), n.next())))
}

// What is read of nodes: of those of a chain, and of those that stand alone.
const READ: [(&[u8], u8, u32, Option<(bool, usize, u32)>); 8] = [
    (b"UFNE", 32, 9, Some((true, 32, 9))),
    (b"UFNE", 31, 0, Some((true, 31, 0))),
    (b"UFNE", 31, 9, None),
    (b"UFNE", 33, 0, None),
    (b"UFND", 32, 0, Some((false, 32, 0))),
    (b"UFND", 32, 9, Some((false, 32, 0))),
    (b"UFND", 33, 0, None),
    (b"UFNB", 1, 0, None),
];

// How many bytes a node of a chain with so many entries has, by its header.
fn size_of(alloc: Global, count: u8, next: u32) -> Result<Option<u32>, Fail> {
    let node = node_of(alloc, b"UFNE", count, next)?;
    let header = node.get(..16).ok_or("a header")?;
    Ok(node_size(4096, header))
}

#[test]
fn nodes_are_read(rt: HostRuntime) -> Result<(), Fail> {
    for (magic, count, fourth, wanted) in READ {
        let node = read(rt.alloc(), magic, count, fourth)?;
        assert_eq!(rt; node, wanted, "{count} {fourth}");
    }
    assert_eq!(rt; size_of(rt.alloc(), 32, 9)?, Some(368));
    assert_eq!(rt; size_of(rt.alloc(), 33, 0)?, None);
    assert_eq!(rt; empty_directory(), EMPTY);
    Ok(())
}

#[test]
fn entries_of_a_directory(rt: HostRuntime) -> Result<(), Fail> {
    let node = Entries::of(&WITH_DIR).ok_or("a directory")?;
    assert!(rt; node.is_chained() && node.next() == 0);
    let mut entries = node.list();
    assert_eq!(rt; entries.len(), 1);
    assert_eq!(rt; entries.find(b"a"), Some(Place::Dir { block: 9 }));
    assert_eq!(rt; entries.find(b"b"), None);
    let entry = entries.next().ok_or("an entry")?;
    assert_eq!(rt; entry.name(), b"a".as_slice());
    assert_eq!(rt; entry.place(), Place::Dir { block: 9 });
    assert!(rt; entries.next().is_none());
    assert_eq!(rt; node_size(4096, &WITH_DIR), Some(27));
    Ok(())
}

// Body nodes of index 0 and 2, with the bytes `hi`. That of index 2 has pointers to blocks 9 and 8, and 0
// in the slots after them, whatever block is given for those.
#[test]
fn bytes_of_a_body_node(rt: HostRuntime) -> Result<(), Fail> {
    let first = body_node(rt.alloc(), 0, &[], b"hi")?;
    let mut expected = [0; 82];
    expected[..12].copy_from_slice(b"UFNB\0\0\0\0\x02\0\0\0");
    expected[80..].copy_from_slice(b"hi");
    assert_eq!(rt; first.as_slice(), expected.as_slice());
    let third = body_node(rt.alloc(), 2, &[9, 8, 7], b"hi")?;
    expected[4] = 2;
    expected[16] = 9;
    expected[20] = 8;
    assert_eq!(rt; third.as_slice(), expected.as_slice());
    let node = BodyNode::of(&third).ok_or("a body node")?;
    assert_eq!(rt; node.index(), 2);
    assert_eq!(rt; node.used(), 2);
    assert_eq!(rt; node.pointer(0), Some(9));
    assert_eq!(rt; node.pointer(1), Some(8));
    assert_eq!(rt; node.pointer(2), None);
    assert_eq!(rt; node.bytes(), b"hi".as_slice());
    Ok(())
}
