//! Scripts run on a flash: on any, on one whose faults can be planned, and on one in memory.
#![tactic(auto)]

mod following;
mod laws_of_scripts;
mod memory;
mod planning;
mod scripts;
mod space_lines;

pub use following::{Following, Start, format_as_planned, mount_as_planned};
pub use laws_of_scripts::script_laws;
pub use memory::run_in_memory;
pub use scripts::{
    Refusal, ScriptFault, Stop, carry_out, run_script, run_script_on, run_script_until,
};
