//! An update on trial. A device keeps the tree that is known to work as the checkpoint `good`. An update is
//! one version, with a file `/trial` that has the number of starts that are left; each start takes one off,
//! and with none left the device goes back to `good`. Power goes in each operation of the flash once, in each
//! way that there is, and at each start the tree is that of `good` or the update's, whole.
#![tactic(auto)]

mod device;
mod shown;
mod story;
mod sweep;
mod trial;

use story::Story;
use sweep::{Tally, cut_each};

/// The stories: the update proves good at its first, second or third start, or at none.
const STORIES: [(Option<u64>, &str); 4] = [
    (Some(1), "good at its first start"),
    (Some(2), "good at its second start"),
    (Some(3), "good at its third start"),
    (None, "good at no start"),
];

fn main(rt: HostRuntime) -> anyhow::Result<()> {
    for (proves_at, name) in STORIES {
        let tally = cut_each(rt.alloc(), Story { proves_at })?;
        tell(&rt, name, tally)?;
    }
    Ok(())
}

/// Tells what came of a story.
fn tell<R: Print>(rt: &R, name: &str, tally: Tally) -> anyhow::Result<()> {
    let whole = tally.whole;
    println!(rt;
        "{name}: {:?} after {} starts, {} programs, {} erases",
        whole.shown, whole.starts, whole.counts.programs, whole.counts.erases
    )?;
    println!(rt;
        "  {} cuts: {} times old, {} times new, {} starts at most",
        tally.runs, tally.old, tally.new, tally.most_starts
    )?;
    Ok(())
}
