//! What a row writes on a flash in memory with a number of nodes in memory.
ghost use Rattle.std.specs.Prelude.{IfSome, IfOk};
ghost use Rattle.flash_simulation.specs.Simulation.{device_of};
ghost use Rattle.system.specs.Systems.{IsSystem};

use crate::error::RowError;
use crate::row::{Row, Side};
use crate::runs::{first_flash, text_of};
use crate::sight::Sight;
use block_ring::Ring;
use flash_model::Flash;
use flash_simulation::SimFlash;
use fs_types::{Answer, Ask, Event};
use script::{Line, LineAnswer, print_answer, read_line};
use script_runs::carry_out;
use std::alloc::Global;
use undofs::{System, mount_with};

/// Runs a row on a flash in memory, with so many nodes in memory, 1 to 64, and
/// looks at the flash and at the used blocks.
pub fn run_with_nodes(
    alloc: Global,
    row: &Row<'_>,
    image: Option<&[u8]>,
    nodes: usize,
    differences: &mut String,
) -> Result<String, RowError> {
    let mut flash = first_flash(alloc, row, image)?;
    let mut system = Some(mount_with(alloc, &mut flash, nodes)?);
    let written = run_lines(alloc, row, &mut flash, &mut system, nodes)?;
    let sight = Sight {
        flash: &flash,
        ring: ring_of(&system),
    };
    sight.append_missed(alloc, differences, row, Side::Nodes(nodes))?;
    Ok(written)
}

/// The used blocks of the system that is mounted.
fn ring_of(system: &Option<System>) -> Option<&Ring> {
    match system {
        Some(system) => Some(&system.state.storage.ring),
        None => None,
    }
}

fn run_lines(
    alloc: Global,
    row: &Row<'_>,
    flash: &mut SimFlash,
    system: &mut Option<System>,
    nodes: usize,
) -> Result<String, RowError>
    requires { IfSome system.old (IsSystem (device_of flash.old)) }
{
    let mut written = Vec::new(alloc);
    for step in &row.steps {
        let line = read_line(alloc, step.line.as_bytes())?;
        let answer = carry_out_with(alloc, flash, system, nodes, line);
        print_answer(&mut written, &answer)?;
    }
    text_of(written)
}

/// Carries out what a line asks. After a restart as many nodes are in memory.
fn carry_out_with(
    alloc: Global,
    flash: &mut SimFlash,
    system: &mut Option<System>,
    nodes: usize,
    line: Line,
) -> LineAnswer
    requires { IfSome system.old (IsSystem (device_of flash.old)) }
    ensures { IfSome system.new (IsSystem (device_of flash.new)) }
{
    match line {
        Line::Ask(Ask::Event(Event::Restart)) => restart(alloc, flash, system, nodes),
        line => carry_out(alloc, flash, system, line),
    }
}

fn restart(
    alloc: Global,
    flash: &mut SimFlash,
    system: &mut Option<System>,
    nodes: usize,
) -> LineAnswer
    ensures { IfSome system.new (IsSystem (device_of flash.new)) }
{
    *system = None;
    flash.power_on();
    match mount_with(alloc, flash, nodes) {
        Ok(mounted) => {
            *system = Some(mounted);
            LineAnswer::Told(Answer::Mounted)
        }
        Err(fault) => LineAnswer::Told(Answer::Refused(fault)),
    }
}
