//! A script that is tried.
use fs_types::{Call, Event, Fault};
use session_oracle::{Script, ask_of, asks_of, new_image};
use std::alloc::Global;
use undofs::Ask;

/// A script that is tried, and what is done after it.
#[derive(Drop)]
pub struct Trial {
    /// The image of the new file system that it begins on.
    pub image: Vec<u8>,
    /// How many versions are kept.
    pub history: usize,
    /// What its lines ask, without its restarts and faults.
    pub script: Vec<Ask>,
    /// A change and a sync.
    pub change: Vec<Ask>,
    /// Undo to the front, redo to the end, a rollback to each checkpoint of the script, a change and a
    /// sync.
    pub later: Vec<Ask>,
}

impl Trial {
    /// Reads a script.
    pub fn new(alloc: Global, script: &Script<'_>) -> Result<Trial, Fault> {
        let lines = script.served_lines(alloc)?;
        let asks = asks_of(alloc, &lines)?;
        Ok(Trial {
            image: new_image(alloc, script)?,
            history: script.history as usize,
            later: later_asks(alloc, script.history, &asks)?,
            change: asks_of(alloc, &["mkdir /z", "sync"])?,
            script: asks,
        })
    }
}

/// What is done after a script that keeps so many versions.
fn later_asks(alloc: Global, history: u32, script: &[Ask]) -> Result<Vec<Ask>, Fault> {
    let mut later = Vec::new(alloc);
    for line in ["undo", "redo"] {
        for _ in 0..history {
            push_lines(alloc, &mut later, &[line, "ls /"])?;
        }
    }
    for ask in script {
        push_rollback(alloc, &mut later, ask)?;
    }
    push_lines(alloc, &mut later, &["mkdir /y", "sync"])?;
    Ok(later)
}

/// Appends a rollback to the checkpoint that is asked for.
fn push_rollback(alloc: Global, later: &mut Vec<Ask>, ask: &Ask) -> Result<(), Fault> {
    if let Ask::Event(Event::Call(Call::Checkpoint { name })) = ask {
        let name = name.clone()?;
        later.push(Ask::Event(Event::Call(Call::Rollback { name })))?;
        push_lines(alloc, later, &["ls /"])?;
    }
    Ok(())
}

fn push_lines(alloc: Global, asks: &mut Vec<Ask>, lines: &[&str]) -> Result<(), Fault> {
    for line in lines {
        let ask = ask_of(alloc, line)?.ok_or(Fault::Invalid)?;
        asks.push(ask)?;
    }
    Ok(())
}
