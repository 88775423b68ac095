//! What is told of a directory itself, or of a file.
ghost use Rattle.std.specs.Prelude.{◌≡◌, [], ◌∷◌, None, IfOk, IfErr};
ghost use Rattle.fs_types.specs.declared.call.Call.{Call};
ghost use Rattle.history_machine.specs.Machine.{refusal, view_tree};
ghost use Rattle.inquiries.specs.Items.{items_at};
ghost use Rattle.inquiries.specs.Printed.{list_lines};
ghost use Rattle.inquiries.specs.Readings.{shown, IsUnchanged, Fails};

use crate::folders::list_below;
use crate::items::Item;
use crate::printing::lines_of;
use crate::reading_calls::stat_at;
use flash_model::Flash;
use fs_types::{Bytes, Fault, Path, Stat, View};
use std::alloc::{AllocError, Global};
use undofs::Fs;

/// The lines of the entries of a directory of a view, in byte order of their names, or that of a file.
pub(crate) fn tell_entries<F: Flash>(
    alloc: Global,
    fs: &mut Fs<'_, F>,
    view: &View,
    path: &Path,
) -> Result<Bytes, Fault>
    ensures same { IsUnchanged fs.old fs.new }
    ensures accepted { IfOk result (λ _. refusal (shown fs.old) (Call.Stat view.now path.now) ≡ None) }
    ensures ok { IfOk result (λ bytes. bytes ≡ list_lines (view_tree (shown fs.old) view.now) path.now) }
    ensures err { IfErr result (Fails (refusal (shown fs.old) (Call.Stat view.now path.now)) fs.old fs.new) }
{
    let items = items_at(alloc, fs, view, path)?;
    Ok(Bytes::from_vec(lines_of(alloc, &items)?))
}

/// The entries of a directory of a view, or the file alone that stands at the path.
fn items_at<F: Flash>(
    alloc: Global,
    fs: &mut Fs<'_, F>,
    view: &View,
    path: &Path,
) -> Result<Vec<Item>, Fault>
    ensures same { IsUnchanged fs.old fs.new }
    ensures accepted { IfOk result (λ _. refusal (shown fs.old) (Call.Stat view.now path.now) ≡ None) }
    ensures ok { IfOk result (λ items. items.items ≡ items_at (view_tree (shown fs.old) view.now) path.now) }
    ensures err { IfErr result (Fails (refusal (shown fs.old) (Call.Stat view.now path.now)) fs.old fs.new) }
{
    let stat = stat_at(fs, view, path)?;
    match stat {
        Stat::Dir(_) => list_below(alloc, fs, view, path, 1),
        Stat::File(_) => Ok(item_alone(alloc, path, stat)?),
    }
}

/// The list of what stands at a path alone.
fn item_alone(alloc: Global, path: &Path, stat: Stat) -> Result<Vec<Item>, AllocError>
    ensures { IfOk result (λ items. items.items ≡ record { path = path.now; stat = stat } ∷ []) }
{
    let mut items = Vec::new(alloc);
    items.push(Item {
        path: path.clone()?,
        stat,
    })?;
    Ok(items)
}
