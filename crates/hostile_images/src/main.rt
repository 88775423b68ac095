//! Mounts images of flashes that are made by a fixed rule, lawful and not, and asks twenty calls of
//! each that mounts; of every fourth then what its history keeps, many files in one call, entries and steps
//! of cleaning and of preparing. A mount is refused only for what the newest record or its trees are; each tree that is
//! mounted is whole; each answer is what a plain machine says that begins with what the mount shows, or one
//! of the further refusals with its cause; and what is shown after all of it, and after a restart then, is
//! what that machine keeps. For each kind of image it prints what became of them, and of the twenty calls.
//! An image with which something else is met is told, and the status is 1.
#![tactic(auto)]

mod facts;
mod lines;
mod tallies;
mod trials;
mod watches;
mod wrong;

use anyhow::Result;
use image_makers::{KINDS, Kind, Numbers};
use lines::{draw_calls, later_asks};
use std::alloc::Global;
use std::process::ExitCode;
use tallies::{Tally, add};
use trials::{Asked, try_image};
use wrong::Wrong;

/// How many images of each kind are made.
const IMAGES: u64 = 2_000;

fn main(rt: HostRuntime) -> Result<ExitCode> {
    let mut total = Tally::default();
    let mut first = 0u64;
    let mut has_chains = false;
    for kind in KINDS {
        let tally = run(&rt, kind, first)?;
        tell(&rt, kind, &tally)?;
        has_chains = has_chains || (kind.is_chains() && tally.has_both());
        total.add_all(&tally);
        add(&mut first, IMAGES);
    }
    tell_calls(&rt, &total)?;
    let is_right = total.wrong == 0 && total.is_enough() && has_chains;
    Ok(ExitCode::from(if is_right { 0 } else { 1 }))
}

/// Tries the images of a kind, by their numbers from one on. The first with which something is wrong is
/// told.
fn run<R: AllocGlobal + Print>(rt: &R, kind: Kind, first: u64) -> Result<Tally> {
    let mut tally = Tally::default();
    for number in first..first.saturating_add(IMAGES) {
        if let Err(wrong) = try_number(rt.alloc(), kind, number, &mut tally) {
            if tally.wrong == 0 {
                println!(rt; "{} {number}: {wrong:?}", kind.name())?;
            }
            add(&mut tally.wrong, 1);
        }
    }
    Ok(tally)
}

/// Tries the image of a kind with this number.
fn try_number(alloc: Global, kind: Kind, number: u64, tally: &mut Tally) -> Result<(), Wrong> {
    let mut numbers = Numbers::of(number);
    let image = kind.image(alloc, &mut numbers)?;
    let calls = draw_calls(alloc, &mut numbers)?;
    let later = later_asks(alloc, number)?;
    let asked = Asked {
        calls: &calls,
        later: &later,
    };
    try_image(alloc, &image, asked, tally)
}

/// Tells what became of the images of a kind.
fn tell<R: Print>(rt: &R, kind: Kind, tally: &Tally) -> Result<()> {
    println!(rt;
        "{}: {} mounted, {} DAMAGED, {} NORECORD, {} BADGEOMETRY, {} no image, {} wrong",
        kind.name(),
        tally.mounted,
        tally.damaged,
        tally.without_record,
        tally.of_other_sizes,
        tally.no_image,
        tally.wrong
    )?;
    Ok(())
}

/// Tells what became of the calls.
fn tell_calls<R: Print>(rt: &R, tally: &Tally) -> Result<()> {
    println!(rt;
        "calls on {} systems: {} accepted, {} refused, {} without a block, {} in read-only mode, {} without a serial or a sequence",
        tally.mounted, tally.accepted, tally.refused, tally.full, tally.read_only, tally.exhausted
    )?;
    Ok(())
}
