//! Whether an archive has room for what stands in a tree.
ghost use Rattle.std.specs.Prelude.{◌≡◌, false, true, IfErr, OnOk};
ghost use Rattle.std.specs.List.{list_all};
ghost use Rattle.archive_jobs.specs.Archiving.{Unspelled, IsNoRoomFor};
ghost use Rattle.archive_jobs.specs.Entries.{has_room_for};

use crate::unarchived::Unarchived;
use fs_types::{Fault, Path};
use inquiries::Item;
use std::alloc::Global;
use tar_format::has_room;

/// Looks whether the format has room for each path. `NoRoom` with the first for which it has none.
pub(crate) fn check_room(alloc: Global, items: &[Item]) -> Result<(), Unarchived>
    ensures ok { OnOk result (list_all has_room_for items.now ≡ true) }
    ensures err { IfErr result (Unspelled items.now) }
{
    for item in items {
        match has_room(alloc, &item.path) {
            Ok(true) => {}
            Ok(false) => return Err(no_room(&item.path)),
            Err(_) => return Err(Unarchived::Refused(Fault::NoMemory)),
        }
    }
    Ok(())
}

/// That there is no room for a path.
fn no_room(path: &Path) -> Unarchived
    ensures { IsNoRoomFor path.now result }
{
    match path.clone() {
        Ok(path) => Unarchived::NoRoom(path),
        Err(_) => Unarchived::Refused(Fault::NoMemory),
    }
}
