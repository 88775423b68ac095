//! Directories of which several names lead to the same one.
use crate::contents::{Contents, SIZES};
use crate::nodes::folder;
use crate::numbers::Numbers;
use std::alloc::{AllocError, Global};

/// 12 to 17 levels of directories, each with a name for the next one. Up to two of the last five have a
/// second name for it.
pub fn shared_directories(alloc: Global, numbers: &mut Numbers) -> Result<Vec<u8>, AllocError> {
    let mut contents = Contents::fresh(alloc, SIZES)?;
    contents.nodes.clear();
    let levels = numbers.below(6).saturating_add(12);
    let mut doubled = 2u32;
    for level in 0..levels {
        let is_doubled = levels < level.saturating_add(6) && doubled != 0 && numbers.hits(2);
        doubled = doubled.saturating_sub(u32::from(is_doubled));
        let next = level.saturating_add(9);
        let names = [folder("00", next), folder("01", next)];
        let count = if is_doubled { 2 } else { 1 };
        contents.add_directory(alloc, level.saturating_add(8), &names[..count])?;
    }
    contents.add_directory(alloc, levels.saturating_add(8), &[])?;
    contents.draft(alloc, SIZES)?.image(alloc)
}
