//! What a mount answers of worked flashes, and what is mounted of them.
use crate::flashes::Worked;
use fs_types::Fault;
use script_runs::run_script;
use std::alloc::Global;
use std::test::Fail;
use undofs::{Flash, Fs};
use worked_contents::{CHAIN_ROWS, CONTENT_ROWS, Content};

/// What a mount of a flash is refused for.
fn refusal_of(alloc: Global, worked: Worked) -> Result<Option<Fault>, Fault> {
    let mut flash = worked.flash(alloc)?;
    Ok(Fs::mount(alloc, &mut flash).err())
}

/// The first of the chains of which a mount answers otherwise than it has to.
fn wrong_chain(alloc: Global) -> Result<Option<&'static str>, Fault> {
    for (name, content, wanted, _) in CHAIN_ROWS {
        if refusal_of(alloc, Worked::Chains(content))? != wanted.err() {
            return Ok(Some(name));
        }
    }
    Ok(None)
}

/// The same of directories that stand alone.
fn wrong_tree(alloc: Global) -> Result<Option<&'static str>, Fault> {
    for (name, content, wanted, _) in CONTENT_ROWS {
        if refusal_of(alloc, Worked::Trees(content))? != wanted.err() {
            return Ok(Some(name));
        }
    }
    Ok(None)
}

/// What is put on a flash, and what a mount refuses it for.
type Row = (&'static str, Worked, Option<Fault>);

const RECORDS: [Row; 14] = [
    (
        "the record twice",
        Worked::Record(1, &[]),
        Some(Fault::Damaged),
    ),
    (
        "1 version kept at most",
        Worked::Record(0, &[(36, 1)]),
        Some(Fault::Damaged),
    ),
    (
        "2 versions kept at most",
        Worked::Record(0, &[(36, 2)]),
        None,
    ),
    (
        "128 versions kept at most",
        Worked::Record(0, &[(36, 128)]),
        None,
    ),
    (
        "129 versions kept at most",
        Worked::Record(0, &[(36, 129)]),
        Some(Fault::Damaged),
    ),
    (
        "a cursor past the versions",
        Worked::Record(0, &[(38, 1)]),
        Some(Fault::Damaged),
    ),
    (
        "format 0",
        Worked::Record(0, &[(20, 0)]),
        Some(Fault::Damaged),
    ),
    ("format 1", Worked::Record(0, &[(20, 1)]), None),
    (
        "format 1, 64 versions",
        Worked::Record(0, &[(20, 1), (36, 64)]),
        None,
    ),
    (
        "format 1, 65 versions",
        Worked::Record(0, &[(20, 1), (36, 65)]),
        Some(Fault::Damaged),
    ),
    (
        "format 1, which has no chain",
        Worked::Chained(&[(20, 1)]),
        Some(Fault::Damaged),
    ),
    (
        "format 3",
        Worked::Record(0, &[(20, 3)]),
        Some(Fault::Damaged),
    ),
    (
        "format 3, pages of 512 bytes",
        Worked::Record(0, &[(20, 3), (25, 2)]),
        Some(Fault::Damaged),
    ),
    (
        "pages of 512 bytes",
        Worked::Record(0, &[(25, 2)]),
        Some(Fault::BadGeometry),
    ),
];

/// The same of records.
fn wrong_record(alloc: Global) -> Result<Option<&'static str>, Fault> {
    for (name, worked, wanted) in RECORDS {
        if refusal_of(alloc, worked)? != wanted {
            return Ok(Some(name));
        }
    }
    Ok(None)
}

#[test]
fn what_is_lawful_is_mounted(rt: HostRuntime) -> Result<(), Fail> {
    assert_eq!(rt; wrong_chain(rt.alloc())?, None);
    assert_eq!(rt; wrong_tree(rt.alloc())?, None);
    assert_eq!(rt; wrong_record(rt.alloc())?, None);
    Ok(())
}

/// Scripts on what is put on a flash, each with its replies. A write to a shared head leaves the other file;
/// bytes past the length are never shown; no directory is removed below sixteen levels, where the root and
/// fifteen directories would have to be written anew and 7 blocks are free; and where the next serial is the
/// greatest number there is, so that none is left, a change is refused, and in a change group its end.
const SCRIPTS: [(Worked, &str, &str); 4] = [
    (
        Worked::Trees(Content::SharedHead),
        "open /f 3\npwrite 0 0 4142\nread /f 0 9\nread /g 0 9\n",
        "fd 0\nwrote 2\ndata 4142\ndata 7878\n",
    ),
    (
        Worked::Trees(Content::SharedHead),
        "stat /f\nread /f 0 9\nopen /f 3\nftruncate 0 5\nread /f 0 9\n",
        "file 2\ndata 7878\nfd 0\nok\ndata 7878000000\n",
    ),
    (
        Worked::Trees(Content::Levels(16)),
        "df\nstat /00/00/00/00/00/00/00/00/00/00/00/00/00/00/00/00\nrmdir /00/00/00/00/00/00/00/00/00/00/00/00/00/00/00/00\nstat /00/00/00/00/00/00/00/00/00/00/00/00/00/00/00/00\n",
        "df data 24 bad 0 free 7 anchors 8\ndir 0\nerr ENOSPC 15\ndir 0\n",
    ),
    (
        Worked::Chained(&[
            (48, 0xff),
            (49, 0xff),
            (50, 0xff),
            (51, 0xff),
            (52, 0xff),
            (53, 0xff),
            (54, 0xff),
            (55, 0xff),
        ]),
        "mkdir /a\nbegin\nmkdir /a\nend\nls /\nabandon\nls /\nbegin\nend\n",
        "err EOVERFLOW 22\nok\nok\nerr EOVERFLOW 22\nentries 1 a/\nok\nentries 0\nok\nok\n",
    ),
];

/// What a script on a flash is answered.
fn told(alloc: Global, worked: Worked, script: &str) -> Result<String, Fail> {
    let mut flash = worked.flash(alloc)?;
    flash.power_on();
    let mut script = script.as_bytes();
    let mut out: Vec<u8> = Vec::new(alloc);
    run_script(alloc, &mut script, &mut out, &mut flash)?;
    Ok(String::from_utf8(out)?)
}

#[test]
fn what_is_mounted_is_the_content(rt: HostRuntime) -> Result<(), Fail> {
    for (worked, script, wanted) in SCRIPTS {
        assert_eq!(rt;
            told(rt.alloc(), worked, script)?.as_str(),
            wanted,
            "{script}"
        );
    }
    Ok(())
}
