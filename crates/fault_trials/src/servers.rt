//! Who does what is asked: the file system, or one that is wrong on purpose.
use crate::sessions::Session;
use fs_types::{Answer, Call, Event, Reply};
use std::alloc::Global;
use undofs::{Ask, Told};

/// Who does what is asked.
#[derive(Clone, Copy)]
pub enum Server {
    /// The file system.
    Right,
    /// It answers that a sync is done, and programs nothing.
    SyncsNothing,
    /// After a sync it erases the anchor of the newest record, to make room there.
    ErasesNewest,
}

impl Server {
    /// Does what is asked.
    pub fn serve(self, alloc: Global, session: &mut Session, ask: &Ask) -> Told {
        match self {
            Server::Right => session.serve(alloc, ask),
            Server::SyncsNothing => {
                if session.is_mounted() && is_sync(ask) {
                    return Told::Answer(Answer::Done(Reply::Empty));
                }
                session.serve(alloc, ask)
            }
            Server::ErasesNewest => {
                let told = session.serve(alloc, ask);
                if is_sync(ask) && matches!(told, Told::Answer(Answer::Done(_))) {
                    return Told::Answer(erase_newest(alloc, session));
                }
                told
            }
        }
    }
}

fn is_sync(ask: &Ask) -> bool {
    matches!(ask, Ask::Event(Event::Call(Call::Sync)))
}

/// Writes the newest record anew, and answers as a sync does.
fn erase_newest(alloc: Global, session: &mut Session) -> Answer {
    match session.write_newest_anew(alloc) {
        Answer::Mounted => Answer::Done(Reply::Empty),
        answer => answer,
    }
}
