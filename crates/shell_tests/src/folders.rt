//! What stands in a folder of the host.
use host_files::HostFiles;
use host_interface::{SourceKind, Sources};
use std::test::Fail;
use std::{env, fs, process};

/// A new folder of this process alone, with so many files, each with its number.
fn filled_folder(rt: &HostRuntime, count: u32) -> Result<String, Fail> {
    let top = env::temp_dir(rt)?;
    let top = top.as_str();
    let id = process::id(rt.process());
    let folder = format!(in rt.alloc(); "{top}/uffs-full-{id}")?;
    fs::create_dir(rt, folder.as_str())?;
    for number in 0..count {
        let name = format!(in rt.alloc(); "{}/file{number:04}", folder.as_str())?;
        let text = format!(in rt.alloc(); "{number}")?;
        fs::write(rt, name.as_str(), text.as_str())?;
    }
    Ok(folder)
}

/// How many digits a number below 10,000 has.
fn digits(number: usize) -> u64 {
    match number {
        0..10 => 1,
        10..100 => 2,
        100..1000 => 3,
        _ => 4,
    }
}

#[test]
fn a_folder_of_as_many_entries_as_may_be_is_told_in_order(rt: HostRuntime) -> Result<(), Fail> {
    let alloc = rt.alloc();
    let folder = filled_folder(&rt, 1024)?;
    let image = format!(in alloc; "{}/no image", folder.as_str())?;
    let sources = HostFiles::new(&rt).gather(alloc, folder.as_str(), image.as_str())?;
    assert_eq!(rt; sources.len(), 1025);
    for (at, found) in sources.iter().enumerate() {
        let (way, kind) = match at.checked_sub(1) {
            None => (format!(in alloc; "/")?, SourceKind::Folder),
            Some(number) => {
                let way = format!(in alloc; "/file{number:04}")?;
                (way, SourceKind::File(digits(number)))
            }
        };
        assert_eq!(rt; (found.way.as_str(), found.kind), (way.as_str(), kind));
    }
    fs::remove_dir_all(&rt, folder.as_str())?;
    Ok(())
}
