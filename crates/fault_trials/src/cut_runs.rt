//! A session that the oracle watches.
use crate::planned::Cut;
use crate::servers::Server;
use crate::sessions::Session;
use crate::trials::Trial;
use flash_model::Counters;
use fs_types::{Answer, Call, Event, Fault};
use session_oracle::{Causes, Oracle, has_fewer_free, show};
use std::alloc::Global;
use undofs::{Ask, Told};

/// A session that the oracle watches.
#[derive(Drop)]
pub struct Run<'a> {
    server: Server,
    session: Session,
    oracle: Oracle<'a>,
    /// The cut that is to come.
    cut: Option<Cut>,
    /// How many came.
    cuts: u64,
    /// How many operations there were up to the end of the last mount.
    mounted_after: Counters,
}

/// What came of what was asked.
enum Went {
    /// It may be told.
    Well,
    /// Power went.
    Cut,
    /// It was not.
    Wrong,
}

impl<'a> Run<'a> {
    /// A session on the image of a script. Nothing is mounted.
    pub fn new(
        alloc: Global,
        trial: &Trial,
        server: Server,
        cut: Option<Cut>,
    ) -> Result<Run<'a>, Fault> {
        let session = Session::new(alloc, &trial.image)?;
        let mounted_after = session.counts();
        let mut run = Run {
            server,
            session,
            oracle: Oracle::new(alloc, trial.history)?,
            cut: None,
            cuts: 0,
            mounted_after,
        };
        if let Some(cut) = cut {
            run.plan(cut)?;
        }
        Ok(run)
    }

    /// Plans a cut.
    pub fn plan(&mut self, cut: Cut) -> Result<(), Fault> {
        self.cut = Some(cut);
        self.session.plan(cut)
    }

    /// How many cuts came.
    pub fn cuts(&self) -> u64 {
        self.cuts
    }

    /// How many operations there were.
    pub fn counts(&self) -> Counters {
        self.session.counts()
    }

    /// How many operations there were up to the end of the last mount.
    pub fn mounted_after(&self) -> Counters {
        self.mounted_after
    }

    /// Mounts, carries out a script up to a cut, and restarts. Whether all of it is a run.
    pub fn play_script(&mut self, alloc: Global, trial: &'a Trial) -> Result<bool, Fault> {
        let is_run = match self.mount(alloc) {
            Went::Well => self.play(alloc, &trial.script)?,
            Went::Cut => true,
            Went::Wrong => false,
        };
        Ok(is_run && self.restart(alloc)?)
    }

    /// Does what comes after a script, and restarts. Whether all of it is a run.
    pub fn play_later(&mut self, alloc: Global, asks: &'a [Ask]) -> Result<bool, Fault> {
        Ok(self.play(alloc, asks)? && self.restart(alloc)?)
    }

    /// Asks up to a cut. Whether all that is told may be.
    pub fn play(&mut self, alloc: Global, asks: &'a [Ask]) -> Result<bool, Fault> {
        for ask in asks {
            match self.turn(alloc, ask)? {
                Went::Well => {}
                Went::Cut => return Ok(true),
                Went::Wrong => return Ok(false),
            }
        }
        Ok(true)
    }

    /// Asks.
    fn turn(&mut self, alloc: Global, ask: &'a Ask) -> Result<Went, Fault> {
        let before = self.session.counts();
        let told = self.server.serve(alloc, &mut self.session, ask);
        let is_quiet = self.session.counts() == before;
        let is_off = is_refused(&told, Fault::PowerCut);
        if is_off != self.is_cut() || asks_nothing(ask) && !is_quiet {
            return Ok(Went::Wrong);
        }
        let causes = Causes {
            cut: is_off,
            full: self.is_full(alloc, ask, &told)?,
            ..Causes::default()
        };
        if !self.oracle.judge(alloc, ask, told, causes)? {
            return Ok(Went::Wrong);
        }
        Ok(self.went(is_off))
    }

    /// Mounts for the first time.
    fn mount(&mut self, alloc: Global) -> Went {
        let answer = self.session.restart(alloc);
        let is_off = is_power_cut(&answer);
        let causes = Causes {
            cut: is_off,
            ..Causes::default()
        };
        if is_off != self.is_cut() || !self.oracle.judge_mount(&answer, causes) {
            return Went::Wrong;
        }
        self.went(is_off)
    }

    fn went(&mut self, is_off: bool) -> Went {
        if is_off {
            self.take_cut();
            return Went::Cut;
        }
        Went::Well
    }

    /// Whether it was told that the flash is full where fewer blocks are free than are needed. Power may
    /// go where that is asked; the next answer tells it then.
    fn is_full(&mut self, alloc: Global, ask: &Ask, told: &Told) -> Result<bool, Fault> {
        if !is_refused(told, Fault::FlashFull) {
            return Ok(false);
        }
        let need = self.oracle.need(alloc, ask)?;
        match has_fewer_free(alloc, &mut self.session, need) {
            Err(Fault::PowerCut) if self.is_cut() => Ok(true),
            is_full => is_full,
        }
    }

    /// Restarts, and once more where power goes in the mount. Whether what is shown then is a history
    /// that a restart may find.
    fn restart(&mut self, alloc: Global) -> Result<bool, Fault> {
        self.take_cut();
        let mut answer = self.session.restart(alloc);
        if is_power_cut(&answer) != self.is_cut() {
            return Ok(false);
        }
        if self.take_cut() {
            answer = self.session.restart(alloc);
        }
        self.mounted_after = self.session.counts();
        if !matches!(answer, Answer::Mounted) {
            return Ok(false);
        }
        match show(alloc, &mut self.session) {
            Ok(shown) => self.oracle.restart(alloc, &shown),
            Err(Fault::NoMemory) => Err(Fault::NoMemory),
            Err(_) => Ok(false),
        }
    }

    /// Whether the planned cut has come.
    fn is_cut(&self) -> bool {
        match self.cut {
            Some(cut) => cut.ahead(self.session.counts()) == 0,
            None => false,
        }
    }

    /// Counts the planned cut, if it has come.
    fn take_cut(&mut self) -> bool {
        let is_cut = self.is_cut();
        if is_cut {
            self.cut = None;
            self.cuts = self.cuts.saturating_add(1);
        }
        is_cut
    }
}

/// Whether what is asked asks nothing of the flash.
fn asks_nothing(ask: &Ask) -> bool {
    matches!(
        ask,
        Ask::Event(Event::Call(Call::Undo | Call::Redo | Call::Goto { .. } | Call::Close { .. }))
    )
}

/// Whether it is told that what was asked is refused so.
fn is_refused(told: &Told, wanted: Fault) -> bool {
    match told {
        Told::Answer(Answer::Refused(fault)) => *fault == wanted,
        _ => false,
    }
}

fn is_power_cut(answer: &Answer) -> bool {
    matches!(answer, Answer::Refused(Fault::PowerCut))
}
