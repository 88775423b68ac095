//! What a script is answered where no cut comes.
use crate::sessions::Session;
use crate::trials::Trial;
use fs_types::Fault;
use session_oracle::{Script, told_text};
use std::alloc::Global;

/// How many lines of a script are answered otherwise than it tells, on a new file system. A script with
/// lines that ask nothing of a system, as restarts, is not asked.
pub fn count_wrong(alloc: Global, script: &Script<'_>, trial: &Trial) -> Result<u64, Fault> {
    if script.lines.len() != trial.script.len() {
        return Ok(0);
    }
    let mut session = Session::new(alloc, &trial.image)?;
    let _ = session.restart(alloc);
    let mut wrong = 0u64;
    for (line, ask) in script.lines.iter().zip(trial.script.iter()) {
        let told = session.serve(alloc, ask);
        let text = told_text(alloc, &mut session, told)?;
        if text.as_slice().trim_ascii_end() != line.reply.as_bytes() {
            wrong = wrong.saturating_add(1);
        }
    }
    Ok(wrong)
}
