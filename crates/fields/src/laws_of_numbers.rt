//! The laws of the definitions, as the contract of a function that does nothing.
ghost use Rattle.std.specs.Prelude.{◌≡◌, ℕ, ◌^◌, ◌<◌, List, ◌++◌, Some};
ghost use Rattle.byteorder.specs.Endian.{little_bytes};
ghost use Rattle.fields.specs.Numbers.{IsBytes, number_at};

/// A number that was written is read, whatever follows it, and what was read stands there as it would
/// be written.
pub fn number_laws()
    ensures read { (n x : ℕ) (rest : List ℕ) → x < 256 ^ n → number_at n (little_bytes n x ++ rest) ≡ Some (x, rest) }
    ensures written { (n x : ℕ) (bytes rest : List ℕ) → IsBytes bytes → number_at n bytes ≡ Some (x, rest) → bytes ≡ little_bytes n x ++ rest }
    ensures fits { (n x : ℕ) (bytes rest : List ℕ) → IsBytes bytes → number_at n bytes ≡ Some (x, rest) → x < 256 ^ n }
{}
