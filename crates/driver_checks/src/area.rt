//! The blocks that a checklist may use up.
ghost use Rattle.std.specs.Prelude.{◌≡◌, ◌+◌, ◌<◌, ◌≤◌};
ghost use Rattle.flash_model.specs.Geometry.{IsGeometry};

use flash_model::Geometry;
use fs_types::Fault;

/// The sizes of a flash by its data sheet, and the blocks that a checklist may use up: at least three,
/// one after another.
#[derive(Clone, Copy, Debug, PartialEq, Eq)]
pub struct Area {
    /// The sizes by the data sheet.
    pub sizes: Geometry,
    /// The first block that may be used up.
    pub first: u32,
    /// How many blocks may be used up.
    pub count: u32,
    pub ghost lawful: { IsGeometry sizes },
    pub ghost enough: { 3 ≤ count },
    pub ghost in_flash: { first + count ≤ sizes.blocks },
}

impl Area {
    ghost use Rattle.std.specs.Prelude.{◌*◌, ◌↔◌, IfOk};
    ghost use Rattle.driver_checks.specs.Areas.{GivesBlock, GivesPage, area_page, HasAreaBlocks};

    /// `BadGeometry` for sizes out of range, and `Invalid` for fewer than three blocks or for blocks
    /// that the flash does not have.
    pub fn new(sizes: Geometry, first: u32, count: u32) -> Result<Area, Fault>
        ensures sizes { IfOk result (λ area. area.sizes ≡ sizes) }
        ensures first { IfOk result (λ area. area.first ≡ first) }
        ensures count { IfOk result (λ area. area.count ≡ count) }
        ensures geometry { (result ≡ Err Fault.BadGeometry) ↔ ¬ IsGeometry sizes }
        ensures invalid { (result ≡ Err Fault.Invalid) ↔ (IsGeometry sizes × ¬ HasAreaBlocks sizes first count) }
    {
        if !sizes.is_lawful() {
            return Err(Fault::BadGeometry);
        }
        if count < 3 || u64::from(first) + u64::from(count) > u64::from(sizes.blocks) {
            return Err(Fault::Invalid);
        }
        Ok(Area {
            sizes,
            first,
            count,
        })
    }

    // The number of the page at a place of a block.
    pub(crate) fn page(self, block: u32, place: u32) -> u32
        requires given { GivesBlock self block }
        requires in_block { place < self.sizes.pages }
        ensures value { result ≡ area_page self block place }
        ensures given { GivesPage self result }
    {
        self.sizes.page_number(block, place)
    }
}
