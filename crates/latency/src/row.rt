//! Rows of what was found, and the tables that they make.
use crate::samples::Spread;
use crate::trial::Found;
use anyhow::Result;
use std::alloc::{AllocError, Global};

/// What was found at a share of used blocks and with steps of a kind.
#[derive(Clone, Copy)]
pub struct Row {
    pub percent: u64,
    pub steps_name: &'static str,
    pub found: Found,
}

/// What a row of a part is called.
fn label_of(alloc: Global, name: &str, row: &Row) -> Result<String, AllocError> {
    format!(in alloc; "{name}, {} %, {}", row.percent, row.steps_name)
}

/// Tells what the calls asked.
pub fn tell_asked<R: Print + AllocGlobal>(rt: &R, name: &str, rows: &[Row]) -> Result<()> {
    println!(rt;
        "{:<31}  p50 erases  p99 erases  most erases  p50 programs  p99 programs  most programs  p50 reads  p99 reads  most reads",
        name
    )?;
    for row in rows {
        let found = row.found;
        let (erases, programs, reads) = (found.erases, found.programs, found.reads);
        print!(rt; "{:<31}", label_of(rt.alloc(), name, row)?)?;
        print!(rt;
            "{:>12}{:>12}{:>13}",
            erases.median, erases.late, erases.most
        )?;
        print!(rt;
            "{:>14}{:>14}{:>15}",
            programs.median, programs.late, programs.most
        )?;
        println!(rt; "{:>11}{:>11}{:>12}", reads.median, reads.late, reads.most)?;
    }
    Ok(println!(rt; "")?)
}

/// Tells how long the calls took, and what the steps between two of them asked and took on the average.
pub fn tell_taken<R: Print + AllocGlobal>(rt: &R, name: &str, rows: &[Row]) -> Result<()> {
    println!(rt;
        "{:<31}   mean ms   p50 ms   p99 ms  most ms  step reads  step erases  step ms",
        name
    )?;
    for row in rows {
        let found = row.found;
        print!(rt; "{:<31}", label_of(rt.alloc(), name, row)?)?;
        tell_spread(rt, found.times)?;
        print!(rt; "{:>12}", found.step_reads)?;
        print!(rt; "{:>13}", found.step_erases)?;
        tell_time(rt, found.step_time)?;
        println!(rt; "")?;
    }
    Ok(println!(rt; "")?)
}

fn tell_spread<R: Print>(rt: &R, times: Spread) -> Result<()> {
    print!(rt; " ")?;
    for time in [times.mean, times.median, times.late, times.most] {
        tell_time(rt, time)?;
    }
    Ok(())
}

/// Tells microseconds in milliseconds, with one place, rounded up.
fn tell_time<R: Print>(rt: &R, time: u64) -> Result<()> {
    let tenths = time.div_ceil(100);
    print!(rt; "{:>7}.{}", tenths / 10, tenths % 10)?;
    Ok(())
}
