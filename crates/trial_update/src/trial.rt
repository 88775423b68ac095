//! The calls of an update on trial.
ghost use Rattle.std.specs.Prelude.{◌≡◌, ◌≢◌, ◌≤◌, map, Ok, Err};
ghost use Rattle.working_state.specs.Steps.{replied, empty};
ghost use Rattle.undofs.specs.Systems.{StepsBetween};
ghost use Rattle.trial_update.specs.Turns.{TakesAll};
ghost use Rattle.trial_update.specs.Trials.{writing, leaving, beginning, giving_up, taking_off, keeping, starts_in, Tries, Starts};

use std::alloc::Global;
use undofs::{CpName, Fault, Flash, Fs, Path, View};

/// The number of starts that an update has.
pub const STARTS: u8 = 3;

/// A file of an update.
#[derive(Drop)]
pub struct NewFile {
    pub path: Path,
    pub bytes: Vec<u8>,
}

/// What a start comes to.
#[derive(Clone, Copy, Debug, PartialEq, Eq)]
pub enum Started {
    /// No update is on trial.
    Settled,
    /// An update is on trial, and so many starts are left after this one.
    OnTrial(u8),
    /// An update had no start left, and is given up.
    GivenUp,
}

/// Begins an update: its files and the number of its starts become one version, which is committed.
pub fn begin_update<F: Flash>(
    alloc: Global,
    fs: &mut Fs<'_, F>,
    trial: &Path,
    files: &[NewFile],
) -> Result<(), Fault>
    ensures { TakesAll fs.old (beginning trial.now files.now) result fs.new }
{
    fs.begin()?;
    write_files(alloc, fs, files)?;
    leave(alloc, fs, trial, STARTS)?;
    fs.end()?;
    fs.sync(alloc)
}

/// Writes files.
fn write_files<F: Flash>(alloc: Global, fs: &mut Fs<'_, F>, files: &[NewFile]) -> Result<(), Fault>
    ensures { TakesAll fs.old (map writing files.now) result fs.new }
{
    for file in files {
        fs.write_file(alloc, &file.path, &file.bytes)?;
    }
    Ok(())
}

/// Takes a start off an update that is on trial, or gives it up where it has none left.
pub fn start<F: Flash>(
    alloc: Global,
    fs: &mut Fs<'_, F>,
    trial: &Path,
    good: &CpName,
) -> Result<Started, Fault>
    ensures { Starts trial.now good.now fs.old result fs.new }
{
    match fs.read_at(alloc, &View::Present, trial, 0, 1) {
        Ok(bytes) => go_on(alloc, fs, trial, good, starts_in(bytes.as_slice())),
        Err(fault) => without_trial(fault),
    }
}

/// A start where the file of the starts that are left is not read.
fn without_trial(fault: Fault) -> Result<Started, Fault>
    ensures missing { fault ≡ Fault.NoEntry → result ≡ Ok Started.Settled }
    ensures other { fault ≢ Fault.NoEntry → result ≡ Err fault }
{
    match fault {
        Fault::NoEntry => Ok(Started::Settled),
        _ => Err(fault),
    }
}

/// A start of an update that has so many starts left.
fn go_on<F: Flash>(
    alloc: Global,
    fs: &mut Fs<'_, F>,
    trial: &Path,
    good: &CpName,
    left: u8,
) -> Result<Started, Fault>
    ensures { Tries trial.now good.now left fs.old result fs.new }
{
    if left == 0 {
        give_up(alloc, fs, good)?;
        return Ok(Started::GivenUp);
    }
    take_off(alloc, fs, trial, left - 1)?;
    Ok(Started::OnTrial(left - 1))
}

/// The number of starts that bytes tell, 0 to 9. It is 0 where they begin with no digit.
fn starts_in(bytes: &[u8]) -> u8
    ensures value { result ≡ starts_in bytes.now }
    ensures digit { result ≤ 9 }
{
    match bytes {
        [digit, ..] if *digit >= b'0' && *digit <= b'9' => *digit - b'0',
        _ => 0,
    }
}

/// Goes back to the tree that is known to work.
fn give_up<F: Flash>(alloc: Global, fs: &mut Fs<'_, F>, good: &CpName) -> Result<(), Fault>
    ensures { TakesAll fs.old (giving_up good.now) result fs.new }
{
    fs.rollback(alloc, good)?;
    fs.sync(alloc)
}

/// Leaves an update so many starts, 0 to 9, and commits that.
fn take_off<F: Flash>(
    alloc: Global,
    fs: &mut Fs<'_, F>,
    trial: &Path,
    left: u8,
) -> Result<(), Fault>
    ensures { TakesAll fs.old (taking_off trial.now left) result fs.new }
{
    leave(alloc, fs, trial, left)?;
    fs.sync(alloc)
}

/// Leaves an update so many starts, 0 to 9.
fn leave<F: Flash>(alloc: Global, fs: &mut Fs<'_, F>, trial: &Path, left: u8) -> Result<(), Fault>
    ensures { StepsBetween fs.old (leaving trial.now left) (replied empty result) fs.new }
{
    fs.write_file(alloc, trial, &[b'0' + left % 10])
}

/// Keeps an update: it is on trial no more, and its tree is the one that is known to work. One record has
/// all of it.
pub fn keep<F: Flash>(
    alloc: Global,
    fs: &mut Fs<'_, F>,
    trial: &Path,
    good: &CpName,
) -> Result<(), Fault>
    ensures { TakesAll fs.old (keeping trial.now good.now) result fs.new }
{
    fs.begin()?;
    fs.unlink(alloc, trial)?;
    fs.end()?;
    fs.remove_checkpoint(good)?;
    fs.checkpoint(good)?;
    fs.sync(alloc)
}
