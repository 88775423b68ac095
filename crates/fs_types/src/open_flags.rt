//! The flags of `open`.
ghost use Rattle.std.specs.Prelude.{⊤, ◌≡◌, [], ◌∷◌, codes, ℕ, List};

use bitflags::{Flag, Flags, bitflag_items};

/// The flags of `open` (POSIX.1-2017 `O_RDONLY`, `O_WRONLY` and `O_RDWR` as two bits, `O_CREAT`,
/// `O_EXCL`, `O_TRUNC`). Any 64 bits are a value.
#[derive(Clone, Copy, PartialEq, Eq, Debug)]
pub struct OpenFlags(u64);

bitflag_items! {
    impl OpenFlags: u64 {
        const READ = 1;
        const WRITE = 2;
        const CREAT = 4;
        const EXCL = 8;
        const TRUNC = 16;
    }
}

impl OpenFlags {
    ghost use Rattle.fs_types.specs.Flags as flags_specs;

    /// Whether `open` takes them: for reading or writing, exclusive only with creation, truncating only
    /// for writing, and no other bit.
    pub fn are_lawful(self) -> bool
        ensures { result ≡ flags_specs.are_lawful self }
    {
        let writes = self.contains(OpenFlags::WRITE);
        if !writes && !self.contains(OpenFlags::READ) {
            return false;
        }
        if self.contains(OpenFlags::EXCL) && !self.contains(OpenFlags::CREAT) {
            return false;
        }
        if self.contains(OpenFlags::TRUNC) && !writes {
            return false;
        }
        self.bits() < 32
    }
}

impl Flags for OpenFlags {
    type Bits = u64;

    ghost exact = { ⊤ };

    ghost table = { (codes "READ", 1) ∷ (codes "WRITE", 2) ∷ (codes "CREAT", 4) ∷ (codes "EXCL", 8) ∷ (codes "TRUNC", 16) ∷ [] };

    ghost set_of = { λ f. f.0 };

    fn flags<'a>() -> &'a [Flag<OpenFlags>] {
        OpenFlags::FLAGS
    }

    fn bits(&self) -> u64 {
        self.0
    }

    fn from_bits_retain(bits: u64) -> OpenFlags {
        OpenFlags(bits)
    }
}
