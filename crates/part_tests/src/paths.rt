//! Paths, names and lists with ample memory.
use fs_types::{Bytes, CpName, Fault, Name, Path, Sequence};
use std::test::Fail;

#[test]
fn paths_and_names_are_made_and_cloned(rt: HostRuntime) -> Result<(), Fail> {
    let path = Path::parse(rt.alloc(), b"/a/b")?;
    assert_eq!(rt; path.names().len(), 2);
    assert_eq!(rt; path.names()[0].as_bytes(), b"a".as_slice());
    assert_eq!(rt; path.names()[1].as_bytes(), b"b".as_slice());
    assert!(rt; path.clone()? == path);
    assert!(rt; path > Path::root(rt.alloc()));
    let name = Name::new(rt.alloc(), b"a")?.clone()?;
    assert_eq!(rt; name.as_bytes(), b"a".as_slice());
    let name = CpName::parse(b"v1")?.clone()?;
    assert_eq!(rt; name.as_bytes(), b"v1".as_slice());
    Ok(())
}

#[test]
fn bytes_are_made_and_appended_to(rt: HostRuntime) -> Result<(), Fail> {
    let mut bytes: Bytes = Sequence::from_slice(rt.alloc(), b"ab")?;
    bytes.push(b'c')?;
    assert_eq!(rt; bytes.as_slice(), b"abc".as_slice());
    assert_eq!(rt; Fault::from(std::alloc::AllocError), Fault::NoMemory);
    Ok(())
}
