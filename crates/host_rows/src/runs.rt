//! The steps of a row, one after the other.
use crate::changes::change;
use crate::looks::holds;
use crate::makes::make;
use crate::row::{FileStep, Step};
use anyhow::{Context, Result, bail};
use host_files::{HostFiles, HostPart};
use host_interface::{ImageFiles, Parts};
use std::alloc::AllocError;
use std::fs;
use std::fs::File;
use std::rt::Files;

/// What another program holds while steps are run, and whether the next step is left out.
#[derive(Drop)]
struct Bench<'a, R> {
    rt: &'a R,
    claimed: Option<HostFiles<'a, R>>,
    part: Option<HostPart>,
    is_left_out: bool,
}

/// Runs steps, and appends what is otherwise than they say.
pub fn run_steps<R: Files<File = File> + AllocGlobal>(
    rt: &R,
    steps: &[Step<'_>],
    differences: &mut String,
) -> Result<()> {
    let mut bench = Bench {
        rt,
        claimed: None,
        part: None,
        is_left_out: false,
    };
    for step in steps {
        bench.take(step, differences)?;
    }
    Ok(())
}

impl<'a, R: Files<File = File> + AllocGlobal> Bench<'a, R> {
    fn take(&mut self, step: &Step<'_>, differences: &mut String) -> Result<()> {
        if self.is_left_out {
            self.is_left_out = false;
            return Ok(());
        }
        match step {
            Step::Call(call) => call.run(
                &mut HostFiles::new(self.rt),
                self.rt.alloc(),
                differences,
            ),
            Step::File(step) => {
                let FileStep { verb, name, rest } = *step;
                self.take_file(*step, differences)
                    .context(format_args!("{verb}: {name} {rest}"))
            }
        }
    }

    fn take_file(&mut self, step: FileStep<'_>, differences: &mut String) -> Result<()> {
        if self.hold(step)? || make(self.rt, step)? || change(self.rt, step)? {
            return Ok(());
        }
        if !holds(self.rt, step)? {
            append_missed(differences, step)?;
        }
        Ok(())
    }

    /// Takes a step on what another program holds, or one that leaves out the next; answers whether it is
    /// such a step.
    fn hold(&mut self, step: FileStep<'_>) -> Result<bool> {
        match step.verb {
            "lock" => self.claim(step.name)?,
            "lock part" => self.open_part(step.name)?,
            "unlock" => {
                self.claimed = None;
                self.part = None;
            }
            "unless read" => self.is_left_out = fs::open(self.rt, step.name).is_ok(),
            _ => return Ok(false),
        }
        Ok(true)
    }

    fn claim(&mut self, name: &str) -> Result<()> {
        let mut files = HostFiles::new(self.rt);
        files.claim(self.rt.alloc(), name)?;
        self.claimed = Some(files);
        Ok(())
    }

    fn open_part(&mut self, name: &str) -> Result<()> {
        self.part = Some(HostFiles::new(self.rt).open_part(self.rt.alloc(), name)?);
        Ok(())
    }
}

/// Appends what was looked at and is otherwise.
fn append_missed(differences: &mut String, step: FileStep<'_>) -> Result<(), AllocError> {
    let FileStep { verb, name, rest } = step;
    writeln!(differences, "  {verb}: {name} {rest}")
}
