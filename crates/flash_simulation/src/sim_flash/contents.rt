//! What a flash in memory holds, put there by no device operation.
ghost use Rattle.std.specs.Prelude.{◌≡◌, ◌≢◌, ℕ, ◌<◌, vec_len, slice_index_or, false};
ghost use Rattle.flash_model.specs.Geometry.{page_count};
ghost use Rattle.flash_model.specs.Contents.{shown_page, IsWhole, PutsPage, PutsWear};
ghost use Rattle.flash_simulation.specs.Simulation.{device_of, plan_of};

use super::SimFlash;
use flash_model::PageView;

impl SimFlash {
    /// Lets a page hold this from now on, whatever it held. This is no device operation: it works
    /// with the power off too, and nothing counts.
    pub fn set_page(&mut self, number: u32, page: PageView<'_>)
        requires in_range { number < page_count (device_of self.old).geometry }
        requires whole { IsWhole (device_of self.old).geometry.page (shown_page page) }
        ensures page { PutsPage (device_of self.old) number (shown_page page.entry) (device_of self.new) }
        ensures plan { plan_of self.new ≡ plan_of self.old }
    {
        self.pages.put(number as usize, page);
    }

    /// Lets a block be worn from now on, or not worn. This is no device operation.
    pub fn set_worn(&mut self, block: u32, worn: bool)
        requires { block < (device_of self.old).geometry.blocks }
        ensures worn { PutsWear (device_of self.old) block worn (device_of self.new) }
        ensures plan { plan_of self.new ≡ plan_of self.old }
    {
        put_wear(&mut self.worn, block as usize, worn);
    }
}

pub(super) fn put_wear(worn: &mut Vec<bool>, block: usize, is_worn: bool)
    requires { block < vec_len worn.old }
    ensures own { slice_index_or worn.new.items block false ≡ is_worn }
    ensures others { (b : ℕ) → b ≢ block → slice_index_or worn.new.items b false ≡ slice_index_or worn.old.items b false }
    ensures len { vec_len worn.new ≡ vec_len worn.old }
{
    worn[block] = is_worn;
}
