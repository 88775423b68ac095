//! The plan: lines of a script, drawn by a linear generator.
use std::alloc::{AllocError, Global};

/// Lines that open the file. `F` stands for the path of a file, and `D` for that of a directory.
const OPENING: [&str; 3] = ["open F 7", "open F 7", "open F 23"];

/// Lines that write the open file: `AT` stands for a place in it, and `DATA` for bytes of one node.
const WRITING: [&str; 4] = [
    "pwrite 0 AT DATA",
    "pwrite 0 AT DATA",
    "pwrite 0 AT DATA",
    "ftruncate 0 AT",
];

/// Lines that end a change group.
const ENDING: [&str; 3] = ["end", "end", "abandon"];

/// Other lines: `N` stands for the name of a checkpoint, `LONG` for bytes of up to three nodes, and `FEW` for
/// a number of blocks.
const OTHER: [&str; 41] = [
    "mkdir D",
    "mkdir D",
    "mkdir D",
    "rmdir D",
    "rmdir D",
    "rmdir D",
    "unlink F",
    "unlink F",
    "write F DATA",
    "write F LONG",
    "write F 6869",
    "write F -",
    "files D f DATA g 6869",
    "files D g LONG",
    "files / f DATA g -",
    "files D g 6869 f -",
    "rename F F",
    "rename F F",
    "rename D D",
    "rename D D",
    "undo",
    "undo",
    "undo",
    "redo",
    "redo",
    "checkpoint N",
    "rmcheckpoint N",
    "rollback N",
    "forget 1",
    "ls D",
    "ls D =N",
    "entries D - 9",
    "entries / a 2 =N",
    "stat D",
    "read F 0 20000",
    "log",
    "space",
    "space",
    "forgetfree FEW",
    "clean 9",
    "clean 99",
];

/// The lines of the plan.
#[derive(Drop)]
pub struct Plan {
    state: u64,
    /// How many lines come up to the close of the open file.
    open_lines: u64,
    /// How many lines come up to the end of the open change group, those in which a file is open at its
    /// end left out.
    group_lines: u64,
}

impl Plan {
    /// The plan from its beginning.
    pub fn new() -> Plan {
        Plan {
            state: 2026,
            open_lines: 0,
            group_lines: 0,
        }
    }

    /// The line of a number, from 1 on.
    pub fn next_line(&mut self, alloc: Global, number: u64) -> Result<String, AllocError> {
        let mut line = String::new(alloc);
        let form = match number {
            1 => "checkpoint empty",
            _ => self.next_form(number % 1_000),
        };
        for word in form.split(' ') {
            if !line.is_empty() {
                line.push(' ')?;
            }
            self.push_word(&mut line, word)?;
        }
        Ok(line)
    }

    /// The next form. Each thousandth goes back to the empty tree, so that the tree does not fill the
    /// flash for good; no file and no group is open then.
    fn next_form(&mut self, place: u64) -> &'static str {
        self.open_lines = self.open_lines.saturating_sub(1);
        if place == 0 {
            return "rollback empty";
        }
        if self.open_lines == 1 {
            return "close 0";
        }
        if self.open_lines > 1 {
            return self.open_form();
        }
        self.closed_form(place)
    }

    /// The next form while a file is open: each second one or so writes it.
    fn open_form(&mut self) -> &'static str {
        if self.below(2) == 0 {
            return self.pick(&WRITING);
        }
        self.pick(&OTHER)
    }

    /// The next form while no file is open.
    fn closed_form(&mut self, place: u64) -> &'static str {
        let in_group = self.group_lines > 0;
        self.group_lines = self.group_lines.saturating_sub(1);
        if in_group && self.group_lines == 0 {
            return self.pick(&ENDING);
        }
        if place < 980 && self.below(6) == 0 {
            self.open_lines = self.below(10).saturating_add(2);
            return self.pick(&OPENING);
        }
        if !in_group && place < 750 && self.below(30) == 0 {
            self.group_lines = self.below(20).saturating_add(1);
            return "begin";
        }
        self.pick(&OTHER)
    }

    /// Appends a word of a form, with what stands in its place.
    fn push_word(&mut self, line: &mut String, word: &str) -> Result<(), AllocError> {
        match word {
            "D" => {
                let depth = self.below(7) / 3 + 1;
                self.push_directories(line, depth)
            }
            "F" => {
                let depth = self.below(3);
                self.push_directories(line, depth)?;
                line.push_str(self.pick(&["/f", "/g"]))
            }
            "N" => line.push_str(self.pick(&["v", "w"])),
            "=N" => line.push_str(self.pick(&["=v", "=w"])),
            "AT" => write!(line, "{}", self.below(12_000)),
            "FEW" => write!(line, "{}", self.below(24)),
            "DATA" => self.push_data(line, 3_000),
            "LONG" => self.push_data(line, 12_000),
            _ => line.push_str(word),
        }
    }

    fn push_directories(&mut self, line: &mut String, depth: u64) -> Result<(), AllocError> {
        for _ in 0..depth {
            line.push_str(self.pick(&["/a", "/b"]))?;
        }
        Ok(())
    }

    /// Appends up to so many times the same byte.
    fn push_data(&mut self, line: &mut String, most: u64) -> Result<(), AllocError> {
        let byte = self.pick(&["00", "41", "5a", "ff"]);
        for _ in 0..=self.below(most) {
            line.push_str(byte)?;
        }
        Ok(())
    }

    /// One of several texts.
    fn pick(&mut self, texts: &[&'static str]) -> &'static str {
        let place = self.below(texts.len() as u64);
        texts.get(place as usize).copied().unwrap_or("log")
    }

    /// A number below a bound (Knuth's generator for MMIX).
    fn below(&mut self, bound: u64) -> u64 {
        self.state = self
            .state
            .wrapping_mul(6_364_136_223_846_793_005)
            .wrapping_add(1_442_695_040_888_963_407);
        (self.state >> 33) % bound.max(1)
    }
}
