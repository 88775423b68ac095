//! Raw flash: the trait that a driver implements, and what is said of flashes.
#![tactic(auto)]

mod fault_kind;
mod flash;
mod geometry;
mod page_view;
mod planned;

pub use fault_kind::{Counters, FaultKind, Operation, PlannedFault};
pub use flash::{DevFault, Flash, PageState};
pub use geometry::Geometry;
pub use page_view::PageView;
pub use planned::Planned;
