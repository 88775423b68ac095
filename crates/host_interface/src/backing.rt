//! Bytes that are read and written in place.
ghost use Rattle.std.specs.Prelude.{◌≡◌, ℕ, List, [], ◌∷◌, Option, IfSome, OnOk, OnErr, length, take, drop};
ghost use Rattle.host_interface.specs.Steps.{Step, writes, barrier, Does, Becomes, KeepsOutside};

use std::io;

/// Bytes that are read and written in place, as those of a file. What is written is on the medium for
/// certain after the next barrier alone.
pub trait Backing {
    // The bytes, where they are known.
    ghost held: { Self → Option (List ℕ) };

    // What was done to them so far, where it is known.
    ghost steps: { Self → Option (List Step) };

    /// Reads as many bytes as the buffer has, from a place on. Fails where there are fewer.
    fn read_at(&mut self, place: u64, buffer: &mut [u8]) -> io::Result<()>
        ensures bytes { OnOk result (IfSome (held self.old) (λ bytes. buffer.new ≡ take (length buffer.old) (drop place bytes))) }
        ensures steps { steps self.new ≡ steps self.old }
        ensures same { held self.new ≡ held self.old };

    /// Writes bytes from a place on. Where that fails nothing is known of them, and what stands outside of
    /// the place is as before.
    fn write_at(&mut self, place: u64, bytes: &[u8]) -> io::Result<()>
        ensures steps { OnOk result (Does (steps self.old) (writes place bytes.now ∷ []) (steps self.new)) }
        ensures bytes { OnOk result (Becomes (held self.old) (writes place bytes.now ∷ []) (held self.new)) }
        ensures failed { OnErr result (KeepsOutside place (length bytes.now) (held self.old) (held self.new)) };

    /// Brings all that was written to the medium.
    fn barrier(&mut self) -> io::Result<()>
        ensures steps { OnOk result (Does (steps self.old) (barrier ∷ []) (steps self.new)) }
        ensures same { held self.new ≡ held self.old };
}
