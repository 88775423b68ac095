//! What stands in another tree in the place of what stands in one.
ghost use Rattle.std.specs.Prelude.{◌≡◌, None, IfOk, IfErr};
ghost use Rattle.std.specs.FinMap.{get};
ghost use Rattle.history_machine.specs.History.{view_refusal};
ghost use Rattle.history_machine.specs.Machine.{view_tree};
ghost use Rattle.inquiries.specs.Counterparts.{counterpart_of, is_missing, stat_there};
ghost use Rattle.inquiries.specs.Readings.{shown, IsUnchanged, Meets};

use crate::items::Item;
use crate::reading_calls::stat_at;
use flash_model::Flash;
use fs_types::{Fault, Path, Stat, View};
use undofs::Fs;

/// What stands in another tree in the place of what stands in one.
#[derive(Clone, Copy, Debug, PartialEq, Eq)]
pub enum Counterpart {
    /// A directory for a directory.
    Directory,
    /// A file for a file.
    File,
    /// Nothing of its kind.
    Missing,
}

/// What stands in the tree of a view in the place of an item.
pub fn find_counterpart<F: Flash>(
    fs: &mut Fs<'_, F>,
    view: &View,
    item: &Item,
) -> Result<Counterpart, Fault>
    requires { view_refusal (shown fs.old).history view.now ≡ None }
    ensures same { IsUnchanged fs.old fs.new }
    ensures ok { IfOk result (λ counterpart. counterpart ≡ counterpart_of item.now.stat (stat_there (view_tree (shown fs.old) view.now) item.now.path)) }
    ensures err { IfErr result (Meets (F.device fs.old.flash.now) (F.device fs.new.flash.now)) }
{
    let there = stat_if_there(fs, view, &item.path)?;
    Ok(counterpart_of(item.stat, there))
}

/// By what stands at the path of an item.
pub(crate) fn counterpart_of(stat: Stat, there: Option<Stat>) -> Counterpart
    ensures { result ≡ counterpart_of stat there }
{
    match (stat, there) {
        (Stat::Dir(_), Some(Stat::Dir(_))) => Counterpart::Directory,
        (Stat::File(_), Some(Stat::File(_))) => Counterpart::File,
        _ => Counterpart::Missing,
    }
}

/// What stands at a path of a view, if anything does. [`Fault::ReadFailed`], [`Fault::PowerCut`] and
/// [`Fault::NoMemory`] may come.
pub fn stat_if_there<F: Flash>(
    fs: &mut Fs<'_, F>,
    view: &View,
    path: &Path,
) -> Result<Option<Stat>, Fault>
    requires { view_refusal (shown fs.old).history view.now ≡ None }
    ensures same { IsUnchanged fs.old fs.new }
    ensures ok { IfOk result (λ stat. stat ≡ stat_there (view_tree (shown fs.old) view.now) path.now) }
    ensures err { IfErr result (Meets (F.device fs.old.flash.now) (F.device fs.new.flash.now)) }
{
    match stat_at(fs, view, path) {
        Ok(stat) => Ok(Some(stat)),
        Err(fault) => {
            if is_missing(fault) {
                Ok(None)
            } else {
                Err(fault)
            }
        }
    }
}

/// Whether a refusal of a look-up tells that nothing stands there.
fn is_missing(fault: Fault) -> bool
    ensures { result ≡ is_missing fault }
{
    matches!(fault, Fault::NoEntry | Fault::NotDirectory)
}
