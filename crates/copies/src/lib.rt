//! Copies of file systems: each kept version and checkpoint of one is made in another, of other sizes.
#![tactic(auto)]

mod adding;
mod alone;
mod bringing;
mod copying;
mod ending;
mod kept;
mod moves;
mod moving;
mod pairs;
mod shapes;
mod uncopied;

pub use adding::add_version;
pub use alone::make_alone;
pub use copying::copy_history;
pub use kept::is_kept;
pub use uncopied::Uncopied;
