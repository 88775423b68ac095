//! A checklist for drivers of raw flash: twelve cases that are run over any driver on a bench.
#![tactic(auto)]

mod area;
mod bench;
mod case;
mod checklist;
mod expected;
mod looks;
mod pattern;
mod scene;
mod site;
mod step;
mod steps;
mod trial;
mod works;
mod wrong;

pub use area::Area;
pub use bench::Bench;
pub use case::Case;
pub use checklist::check_driver;
pub use step::Step;
pub use steps::Steps;
