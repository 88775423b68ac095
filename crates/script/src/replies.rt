//! What is printed for an answer.
ghost use Rattle.std.specs.Prelude.{◌≡◌, ◌++◌, [], ◌∷◌, length, decimal, codes, OnOk, if◌then◌else◌};
ghost use Rattle.std.specs.List.{flat_map, enumerate_from};
ghost use Rattle.script.specs.Replies.{data_text, entry_text, standing_text, marked_serial, serial_text, name_text, log_text, df_text, stat_text, reply_text, refusal_text, frees_text, version_text, checkpoint_text, space_text, told_text, text_of};

use crate::digits::{print_hex, print_name, print_number};
use crate::line_answer::LineAnswer;
use crate::space_line::{CheckpointLine, SpaceLine, VersionLine};
use fs_types::{Answer, CpName, Fault, Name, Reply, Stat};
use std::alloc::AllocError;

/// Appends a word and a number.
fn print_labelled(out: &mut Vec<u8>, label: &[u8], number: u64) -> Result<(), AllocError>
    ensures { OnOk result (out.new.items ≡ out.old.items ++ label.now ++ decimal number) }
{
    out.extend_from_slice(label)?;
    print_number(out, number)
}

fn print_data(out: &mut Vec<u8>, bytes: &[u8]) -> Result<(), AllocError>
    ensures { OnOk result (out.new.items ≡ out.old.items ++ data_text bytes.now) }
{
    if bytes.is_empty() {
        return out.extend_from_slice(b"data -");
    }
    out.extend_from_slice(b"data ")?;
    print_hex(out, bytes)
}

fn print_entry(out: &mut Vec<u8>, name: &Name, is_directory: bool) -> Result<(), AllocError>
    ensures { OnOk result (out.new.items ≡ out.old.items ++ entry_text (name.now, is_directory)) }
{
    out.push(b' ')?;
    print_name(out, name.as_bytes())?;
    if is_directory {
        out.push(b'/')?;
    }
    Ok(())
}

fn print_entries(out: &mut Vec<u8>, entries: &[(Name, bool)]) -> Result<(), AllocError>
    ensures { OnOk result (out.new.items ≡ out.old.items ++ flat_map entry_text entries.now) }
{
    for (name, is_directory) in entries {
        print_entry(out, name, *is_directory)?;
    }
    Ok(())
}

fn print_names(out: &mut Vec<u8>, entries: &[(Name, bool)]) -> Result<(), AllocError>
    ensures { OnOk result (out.new.items ≡ out.old.items ++ codes "entries " ++ decimal (length entries.now) ++ flat_map entry_text entries.now) }
{
    out.extend_from_slice(b"entries ")?;
    print_number(out, entries.len() as u64)?;
    print_entries(out, entries)
}

/// A name with what stands there.
fn print_standing(out: &mut Vec<u8>, name: &Name, stat: Stat) -> Result<(), AllocError>
    ensures { OnOk result (out.new.items ≡ out.old.items ++ standing_text (name.now, stat)) }
{
    out.push(b' ')?;
    print_name(out, name.as_bytes())?;
    match stat {
        Stat::Dir(entries) => print_labelled(out, b"/ ", entries),
        Stat::File(length) => print_labelled(out, b" ", length),
    }
}

fn print_standings(out: &mut Vec<u8>, entries: &[(Name, Stat)]) -> Result<(), AllocError>
    ensures { OnOk result (out.new.items ≡ out.old.items ++ flat_map standing_text entries.now) }
{
    for (name, stat) in entries {
        print_standing(out, name, *stat)?;
    }
    Ok(())
}

fn print_listing(out: &mut Vec<u8>, entries: &[(Name, Stat)]) -> Result<(), AllocError>
    ensures { OnOk result (out.new.items ≡ out.old.items ++ codes "entries " ++ decimal (length entries.now) ++ flat_map standing_text entries.now) }
{
    out.extend_from_slice(b"entries ")?;
    print_number(out, entries.len() as u64)?;
    print_standings(out, entries)
}

fn print_serial(out: &mut Vec<u8>, serial: u64, is_present: bool) -> Result<(), AllocError>
    ensures { OnOk result (out.new.items ≡ out.old.items ++ marked_serial is_present serial) }
{
    out.push(b' ')?;
    if is_present {
        out.push(b'*')?;
    }
    print_number(out, serial)
}

fn print_serials(out: &mut Vec<u8>, serials: &[u64], cursor: u64) -> Result<(), AllocError>
    ensures { OnOk result (out.new.items ≡ out.old.items ++ flat_map (serial_text cursor) (enumerate_from 0 serials.now)) }
{
    for (place, serial) in serials.iter().enumerate() {
        print_serial(out, *serial, place as u64 == cursor)?;
    }
    Ok(())
}

fn print_checkpoints(out: &mut Vec<u8>, names: &[CpName]) -> Result<(), AllocError>
    ensures { OnOk result (out.new.items ≡ out.old.items ++ flat_map name_text names.now) }
{
    for name in names {
        out.push(b' ')?;
        print_name(out, name.as_bytes())?;
    }
    Ok(())
}

fn print_df(
    out: &mut Vec<u8>,
    blocks: u64,
    bad: u64,
    free: u64,
    anchors: u64,
) -> Result<(), AllocError>
    ensures { OnOk result (out.new.items ≡ out.old.items ++ df_text blocks bad free anchors) }
{
    print_labelled(out, b"df data ", blocks)?;
    print_labelled(out, b" bad ", bad)?;
    print_labelled(out, b" free ", free)?;
    print_labelled(out, b" anchors ", anchors)
}

fn print_dropped(out: &mut Vec<u8>, dropped: bool) -> Result<(), AllocError>
    ensures { OnOk result (out.new.items ≡ out.old.items ++ codes " dropped " ++ (if dropped then codes "1" else codes "0")) }
{
    out.extend_from_slice(b" dropped ")?;
    out.push(if dropped { b'1' } else { b'0' })?;
    Ok(())
}

fn print_versions(out: &mut Vec<u8>, versions: &[u64], cursor: u64) -> Result<(), AllocError>
    ensures { OnOk result (out.new.items ≡ out.old.items ++ codes " versions" ++ flat_map (serial_text cursor) (enumerate_from 0 versions.now)) }
{
    out.extend_from_slice(b" versions")?;
    print_serials(out, versions, cursor)
}

fn print_log(
    out: &mut Vec<u8>,
    next: u64,
    dropped: bool,
    versions: &[u64],
    cursor: u64,
    checkpoints: &[CpName],
) -> Result<(), AllocError>
    ensures { OnOk result (out.new.items ≡ out.old.items ++ log_text next dropped versions.now cursor checkpoints.now) }
{
    print_labelled(out, b"log next ", next)?;
    print_dropped(out, dropped)?;
    print_versions(out, versions, cursor)?;
    out.extend_from_slice(b" checkpoints")?;
    print_checkpoints(out, checkpoints)
}

fn print_stat(out: &mut Vec<u8>, stat: Stat) -> Result<(), AllocError>
    ensures { OnOk result (out.new.items ≡ out.old.items ++ stat_text stat) }
{
    match stat {
        Stat::Dir(entries) => print_labelled(out, b"dir ", entries),
        Stat::File(length) => print_labelled(out, b"file ", length),
    }
}

fn print_reply(out: &mut Vec<u8>, reply: &Reply) -> Result<(), AllocError>
    ensures { OnOk result (out.new.items ≡ out.old.items ++ reply_text reply.now) }
{
    match reply {
        Reply::Empty => out.extend_from_slice(b"ok"),
        Reply::Fd(descriptor) => print_labelled(out, b"fd ", u64::from(*descriptor)),
        Reply::Bytes(bytes) => print_data(out, bytes.as_slice()),
        Reply::Count(count) => print_labelled(out, b"wrote ", *count),
        Reply::Stat(stat) => print_stat(out, *stat),
        Reply::Names(names) => print_names(out, names.as_slice()),
        Reply::Entries(entries) => print_listing(out, entries.as_slice()),
        Reply::Log {
            next,
            dropped,
            versions,
            cursor,
            checkpoints,
        } => print_log(
            out,
            *next,
            *dropped,
            versions.as_slice(),
            *cursor,
            checkpoints.as_slice(),
        ),
        Reply::Df {
            blocks,
            bad,
            free,
            anchors,
        } => print_df(out, *blocks, *bad, *free, *anchors),
        Reply::Step(true) => out.extend_from_slice(b"done"),
        Reply::Step(false) => out.extend_from_slice(b"more"),
    }
}

fn print_refusal(out: &mut Vec<u8>, fault: Fault) -> Result<(), AllocError>
    ensures { OnOk result (out.new.items ≡ out.old.items ++ refusal_text fault) }
{
    out.extend_from_slice(b"err ")?;
    out.extend_from_slice(fault.word().as_bytes())?;
    out.push(b' ')?;
    print_number(out, u64::from(fault.number()))
}

fn print_told(out: &mut Vec<u8>, answer: &Answer) -> Result<(), AllocError>
    ensures { OnOk result (out.new.items ≡ out.old.items ++ told_text answer.now) }
{
    match answer {
        Answer::Done(reply) => print_reply(out, reply),
        Answer::Refused(fault) => print_refusal(out, *fault),
        Answer::Mounted => out.extend_from_slice(b"mounted"),
        Answer::Unmounted => out.extend_from_slice(b"unmounted"),
    }
}

/// What forgetting the versions up to one frees, where that may be.
fn print_frees(out: &mut Vec<u8>, frees: Option<u64>) -> Result<(), AllocError>
    ensures { OnOk result (out.new.items ≡ out.old.items ++ frees_text frees) }
{
    match frees {
        Some(blocks) => print_labelled(out, b" frees ", blocks),
        None => Ok(()),
    }
}

fn print_version(out: &mut Vec<u8>, version: &VersionLine) -> Result<(), AllocError>
    ensures { OnOk result (out.new.items ≡ out.old.items ++ version_text version.now) }
{
    print_labelled(out, b" @", version.serial)?;
    print_frees(out, version.frees)?;
    print_labelled(out, b" alone ", version.alone)?;
    if version.is_present {
        out.extend_from_slice(b" present")?;
    }
    Ok(())
}

fn print_version_lines(out: &mut Vec<u8>, versions: &[VersionLine]) -> Result<(), AllocError>
    ensures { OnOk result (out.new.items ≡ out.old.items ++ flat_map version_text versions.now) }
{
    for version in versions {
        print_version(out, version)?;
    }
    Ok(())
}

fn print_checkpoint(out: &mut Vec<u8>, checkpoint: &CheckpointLine) -> Result<(), AllocError>
    ensures { OnOk result (out.new.items ≡ out.old.items ++ checkpoint_text checkpoint.now) }
{
    out.extend_from_slice(b" =")?;
    print_name(out, checkpoint.name.as_bytes())?;
    print_labelled(out, b" alone ", checkpoint.alone)
}

fn print_checkpoint_lines(
    out: &mut Vec<u8>,
    checkpoints: &[CheckpointLine],
) -> Result<(), AllocError>
    ensures { OnOk result (out.new.items ≡ out.old.items ++ flat_map checkpoint_text checkpoints.now) }
{
    for checkpoint in checkpoints {
        print_checkpoint(out, checkpoint)?;
    }
    Ok(())
}

fn print_space(out: &mut Vec<u8>, space: &SpaceLine) -> Result<(), AllocError>
    ensures { OnOk result (out.new.items ≡ out.old.items ++ space_text space.now) }
{
    out.extend_from_slice(b"space")?;
    print_version_lines(out, space.versions.as_slice())?;
    print_checkpoint_lines(out, space.checkpoints.as_slice())
}

fn print_text(out: &mut Vec<u8>, answer: &LineAnswer) -> Result<(), AllocError>
    ensures { OnOk result (out.new.items ≡ out.old.items ++ text_of answer.now) }
{
    match answer {
        LineAnswer::Told(answer) => print_told(out, answer),
        LineAnswer::Space(space) => print_space(out, space),
        LineAnswer::Forgot(count) => print_labelled(out, b"forgot ", *count),
        LineAnswer::Syntax => out.extend_from_slice(b"err SYNTAX"),
    }
}

/// Appends the text of an answer, and LF.
pub fn print_answer(out: &mut Vec<u8>, answer: &LineAnswer) -> Result<(), AllocError>
    ensures { OnOk result (out.new.items ≡ out.old.items ++ text_of answer.now ++ 10 ∷ []) }
{
    print_text(out, answer)?;
    out.push(b'\n')?;
    Ok(())
}
