//! The bytes that a checklist programs into a page.
ghost use Rattle.std.specs.Prelude.{◌≡◌, ◌^◌, ◌<◌, length, IsTrue};
ghost use Rattle.driver_checks.specs.Patterns.{pattern_byte, IsPattern};

/// The bytes of a page in a round.
#[derive(Clone, Copy)]
pub(crate) struct Pattern {
    pub(crate) page: u32,
    pub(crate) round: u8,
}

impl Pattern {
    fn byte(self, place: usize) -> u8
        requires { place < 2 ^ 32 }
        ensures { result ≡ pattern_byte self.page self.round place }
    {
        let page = self.page as usize;
        let sum = page * 37 + page / 256 + self.round as usize + place + place / 256;
        (sum % 256) as u8
    }

    pub(crate) fn fill(self, buffer: &mut [u8])
        requires { length buffer.old < 2 ^ 32 }
        ensures { IsPattern self.page self.round buffer.new }
    {
        for i in 0..buffer.len() {
            buffer[i] = self.byte(i);
        }
    }

    pub(crate) fn is_in(self, bytes: &[u8]) -> bool
        requires { length bytes.now < 2 ^ 32 }
        ensures { IsTrue result → IsPattern self.page self.round bytes.now }
    {
        for i in 0..bytes.len() {
            if bytes[i] != self.byte(i) {
                return false;
            }
        }
        true
    }
}
