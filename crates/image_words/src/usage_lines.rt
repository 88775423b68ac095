//! The lines of how many blocks are taken.
ghost use Rattle.std.specs.Prelude.{◌≡◌, ◌++◌, codes, IfOk, OnOk};
ghost use Rattle.std.specs.List.{flat_map};
ghost use Rattle.image_words.specs.ImageUsages.{counts_text, usage_line, usage_text};

use block_usage::{EntryUsage, Usage, UsageList};
use inquiries::print_path;
use script::print_number;
use std::alloc::{AllocError, Global};

/// A line for each entry, and one for all together.
pub(crate) fn usage_text(alloc: Global, list: &UsageList) -> Result<Vec<u8>, AllocError>
    ensures { IfOk result (λ text. text.items ≡ usage_text list.now) }
{
    let mut out = Vec::new(alloc);
    add_entries(&mut out, &list.entries)?;
    add_counts(&mut out, list.total)?;
    out.extend_from_slice(b"total\n")?;
    Ok(out)
}

/// Adds the lines of entries.
fn add_entries(out: &mut Vec<u8>, entries: &[EntryUsage]) -> Result<(), AllocError>
    ensures { OnOk result (out.new.items ≡ out.old.items ++ flat_map usage_line entries.now) }
{
    for entry in entries {
        add_entry(out, entry)?;
    }
    Ok(())
}

/// Adds the line of an entry.
fn add_entry(out: &mut Vec<u8>, entry: &EntryUsage) -> Result<(), AllocError>
    ensures { OnOk result (out.new.items ≡ out.old.items ++ usage_line entry.now) }
{
    add_counts(out, entry.usage)?;
    print_path(out, entry.path.names())?;
    out.push(b'\n')?;
    Ok(())
}

/// Adds how many blocks these are, and how many of them are kept alone.
fn add_counts(out: &mut Vec<u8>, usage: Usage) -> Result<(), AllocError>
    ensures { OnOk result (out.new.items ≡ out.old.items ++ counts_text usage) }
{
    print_number(out, usage.blocks)?;
    out.push(b' ')?;
    print_number(out, usage.alone)?;
    out.push(b' ')?;
    Ok(())
}
