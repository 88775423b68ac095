//! What a device shows: which tree, and which one is known to work.
use std::alloc::Global;
use undofs::{CpName, Fault, Flash, Fs, Name, Path, View};

/// The tree that a device shows.
#[derive(Clone, Copy, Debug, PartialEq, Eq)]
pub enum Shown {
    /// That from before the update.
    Old,
    /// The update's, with so many starts left.
    OnTrial(u8),
    /// The update's, which is kept.
    New,
}

impl Shown {
    /// The tree that the names and bytes of its files tell. `None` where it is none of these.
    fn told(text: &str) -> Option<Shown> {
        match text {
            "limit=20;name=pump;" => Some(Shown::Old),
            "limit=30;name=pump 2;" => Some(Shown::New),
            "limit=30;name=pump 2;trial=3;" => Some(Shown::OnTrial(3)),
            "limit=30;name=pump 2;trial=2;" => Some(Shown::OnTrial(2)),
            "limit=30;name=pump 2;trial=1;" => Some(Shown::OnTrial(1)),
            "limit=30;name=pump 2;trial=0;" => Some(Shown::OnTrial(0)),
            _ => None,
        }
    }

    /// The tree after one more start.
    pub fn started(self) -> Shown {
        match self {
            Shown::Old | Shown::OnTrial(0) => Shown::Old,
            Shown::OnTrial(left) => Shown::OnTrial(left.saturating_sub(1)),
            Shown::New => Shown::New,
        }
    }

    /// The tree that is known to work then.
    fn good(self) -> Shown {
        match self {
            Shown::Old | Shown::OnTrial(_) => Shown::Old,
            Shown::New => Shown::New,
        }
    }
}

/// The tree that a device shows. [`Fault::Damaged`] where it is none, or where the one that is known to work
/// is not what it has to be.
pub fn look<F: Flash>(alloc: Global, fs: &mut Fs<'_, F>, good: &CpName) -> Result<Shown, Fault> {
    let shown = tree(alloc, fs, &View::Present)?;
    let kept = tree(alloc, fs, &View::Checkpoint(good.clone()?))?;
    if kept == shown.good() {
        Ok(shown)
    } else {
        Err(Fault::Damaged)
    }
}

/// The tree that a view shows. [`Fault::Damaged`] where it is none.
pub fn tree<F: Flash>(alloc: Global, fs: &mut Fs<'_, F>, view: &View) -> Result<Shown, Fault> {
    let names = fs.list(alloc, view, &Path::root(alloc))?;
    let mut text = String::new(alloc);
    for (name, _) in names.as_slice() {
        push_file(alloc, fs, view, name, &mut text)?;
    }
    Shown::told(text.as_str()).ok_or(Fault::Damaged)
}

/// Appends the name and the first bytes of a file in the root.
fn push_file<F: Flash>(
    alloc: Global,
    fs: &mut Fs<'_, F>,
    view: &View,
    name: &Name,
    text: &mut String,
) -> Result<(), Fault> {
    let mut path = Vec::new(alloc);
    path.push(b'/')?;
    path.extend_from_slice(name.as_bytes())?;
    let bytes = fs.read_at(alloc, view, &Path::parse(alloc, &path)?, 0, 99)?;
    for part in [name.as_bytes(), b"=", bytes.as_slice(), b";"] {
        let part = String::from_utf8_lossy(alloc, part)?;
        text.push_str(part.as_str())?;
    }
    Ok(())
}
