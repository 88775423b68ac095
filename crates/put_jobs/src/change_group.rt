//! The change group of a put: its beginning, what is carried out in it, and its end.
ghost use Rattle.std.specs.Prelude.{◌≡◌, ◌++◌, IfSome};
ghost use Rattle.flash_simulation.specs.Simulation.{device_of};
ghost use Rattle.system.specs.Systems.{IsSystem};
ghost use Rattle.put_jobs.specs.Puts.{stop_of, stop_of_reply, refused_by, is_mkdir, makes_directory, is_due, group_start};
ghost use Rattle.put_jobs.specs.Served.{place, ServesPut, ClosesGroup, EndsGroup};

use crate::putting::Put;
use crate::trim::trim_made;
use fs_types::{Answer, Call, Event, Fault, Reply, Stat};
use script_runs::Refusal;
use undofs::{System, serve};

impl Put {
    /// Begins a change group, and carries out events in it.
    pub(crate) fn begin(&mut self, events: &[Event]) -> Result<(), Refusal>
        requires { IfSome self.old.system (IsSystem (device_of self.old.flash)) }
        ensures mounted { IfSome self.new.system (IsSystem (device_of self.new.flash)) }
        ensures asks { ServesPut (place self.old) (group_start ++ events.now) result (place self.new) }
    {
        let start = [Event::Call(Call::Begin)];
        match self.ask_all(&start) {
            Ok(()) => self.ask_all(events),
            Err(refusal) => Err(refusal),
        }
    }

    /// Ends the change group. Where it makes a version that is synced, and what nothing keeps is erased then;
    /// where it makes none nothing is written.
    pub(crate) fn end(&mut self) -> Result<(), Refusal>
        requires { IfSome self.old.system (IsSystem (device_of self.old.flash)) }
        ensures { EndsGroup (place self.old) result (place self.new) }
    {
        let is_made = is_due(&self.system);
        match self.close() {
            Ok(()) => {}
            Err(refusal) => return Err(refusal),
        }
        trim_made(is_made, self);
        Ok(())
    }

    /// Ends the change group, and syncs where it makes a version: nothing is written where it makes none.
    fn close(&mut self) -> Result<(), Refusal>
        requires { IfSome self.old.system (IsSystem (device_of self.old.flash)) }
        ensures mounted { IfSome self.new.system (IsSystem (device_of self.new.flash)) }
        ensures closes { ClosesGroup (place self.old) result (place self.new) }
    {
        let end = [Event::Call(Call::End), Event::Call(Call::Sync)];
        let count = if is_due(&self.system) { 2 } else { 1 };
        self.ask_all(&end[..count])
    }

    /// Carries out events in order, until an answer ends the put.
    pub(crate) fn ask_all(&mut self, events: &[Event]) -> Result<(), Refusal>
        requires { IfSome self.old.system (IsSystem (device_of self.old.flash)) }
        ensures mounted { IfSome self.new.system (IsSystem (device_of self.new.flash)) }
        ensures asks { ServesPut (place self.old) events.now result (place self.new) }
    {
        for event in events {
            let answer = serve(self.alloc, &mut self.flash, &mut self.system, event);
            if let Some(refusal) = stop_of(event, &answer) {
                return Err(refusal);
            }
        }
        Ok(())
    }
}

/// Whether a version is due in the change group that is open, if one is.
fn is_due(system: &Option<System>) -> bool
    ensures { result ≡ is_due system.now }
{
    let Some(system) = system else {
        return false;
    };
    match &system.state.group {
        Some(group) => group.is_due,
        None => false,
    }
}

/// How the answer to an event ends a put, if it does.
fn stop_of(event: &Event, answer: &Answer) -> Option<Refusal>
    ensures { result ≡ stop_of event.now answer.now }
{
    match answer {
        Answer::Refused(fault) => refused_by(*fault, is_mkdir(event)),
        Answer::Done(reply) => stop_of_reply(reply),
        Answer::Unmounted => Some(Refusal::Unmounted),
        Answer::Mounted => None,
    }
}

/// How a refusal ends a put: a directory that is to be made may be there already.
fn refused_by(fault: Fault, is_made: bool) -> Option<Refusal>
    ensures { result ≡ refused_by fault is_made }
{
    match fault {
        Fault::Exists => {
            if is_made {
                None
            } else {
                Some(Refusal::Fault(Fault::Exists))
            }
        }
        _ => Some(Refusal::Fault(fault)),
    }
}

/// How a reply ends a put: a file stands where a directory has to be.
fn stop_of_reply(reply: &Reply) -> Option<Refusal>
    ensures { result ≡ stop_of_reply reply.now }
{
    match reply {
        Reply::Stat(Stat::File(_)) => Some(Refusal::Fault(Fault::Exists)),
        _ => None,
    }
}

/// Whether an event makes a directory.
fn is_mkdir(event: &Event) -> bool
    ensures { result ≡ is_mkdir event.now }
{
    match event {
        Event::Call(call) => makes_directory(call),
        _ => false,
    }
}

fn makes_directory(call: &Call) -> bool
    ensures { result ≡ makes_directory call.now }
{
    matches!(call, Call::Mkdir { .. })
}
