//! What a put leaves where it stands.
ghost use Rattle.std.specs.Prelude.{◌≡◌, ◌++◌, map, IfOk, OnOk};
ghost use Rattle.std.specs.List.{flat_map};
ghost use Rattle.host_interface.specs.Sources.{source_found};
ghost use Rattle.put_lots.specs.Removals.{kept_found};

use fs_types::{Fault, Name, Path, Stat};
use host_interface::{Source, SourceKind};
use std::alloc::{AllocError, Global};

/// What stands on the host at a way from the folder that is put.
#[derive(Debug, Drop)]
pub struct Kept {
    /// The names from that folder down.
    pub way: Path,
    /// What stands there.
    pub kind: SourceKind,
}

impl Kept {
    ghost use Rattle.std.specs.Prelude.{◌≡◌};
    ghost use Rattle.put_lots.specs.Removals.{accounts_for};

    /// Whether it accounts for what stands in the image at these names from the path down: a folder for a
    /// directory, a file for a file, and a link, which is left out, for all at it and below it.
    pub(crate) fn accounts_for(&self, names: &[Name], stat: Stat) -> bool
        ensures { result ≡ accounts_for self.now names.now stat }
    {
        let way = self.way.names();
        match (self.kind, stat) {
            (SourceKind::Folder, Stat::Dir(_)) => names == way,
            (SourceKind::File(_), Stat::File(_)) => names == way,
            (SourceKind::Link, _) => names.starts_with(way),
            _ => false,
        }
    }
}

/// What sources account for. One whose way is no path does for nothing, since no entry can have its name.
pub fn kept_of(alloc: Global, sources: &[Source]) -> Result<Vec<Kept>, AllocError>
    ensures { IfOk result (λ kept. kept.items ≡ flat_map kept_found (map source_found sources.now)) }
{
    let mut kept = Vec::new(alloc);
    for source in sources {
        push_kept(alloc, &mut kept, source)?;
    }
    Ok(kept)
}

/// Appends what a source accounts for.
fn push_kept(alloc: Global, kept: &mut Vec<Kept>, source: &Source) -> Result<(), AllocError>
    ensures { OnOk result (kept.new.items ≡ kept.old.items ++ kept_found (source_found source.now)) }
{
    match Path::parse(alloc, source.way.as_bytes()) {
        Ok(way) => {
            kept.push(Kept {
                way,
                kind: source.kind,
            })?;
            Ok(())
        }
        Err(Fault::NoMemory) => Err(AllocError),
        Err(_) => Ok(()),
    }
}
