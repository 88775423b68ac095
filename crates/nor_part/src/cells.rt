//! Bytes of a part in memory: what a program and an erase do to them, done and torn.
ghost use Rattle.std.specs.Prelude.{◌≡◌, ◌≢◌, ◌+◌, ◌<◌, ◌≤◌, ℕ, length, slice_index, true};
ghost use Rattle.nor_part.specs.Part.{HasCleared, HasTorn, KeepsOthers, LeavesTrace, is_blank};
ghost use Rattle.nor_part.specs.Memory.{ZeroesBytes};

// The first bytes lose the bits that these have not.
pub(crate) fn clear(cells: &mut [u8], bytes: &[u8])
    requires { length bytes.now ≤ length cells.old }
    ensures cleared { HasCleared cells.old bytes.now cells.new }
    ensures keeps { KeepsOthers cells.old bytes.now cells.new }
{
    for i in 0..bytes.len() {
        cells[i] &= bytes[i];
    }
}

// The same, given up too early: of the bytes that are to lose their upper four bits a blank one loses
// three of them, and any other is as it should be. Bytes that are to keep one of these bits stay.
pub(crate) fn tear(cells: &mut [u8], bytes: &[u8])
    requires { length bytes.now ≤ length cells.old }
    ensures torn { HasTorn cells.old bytes.now cells.new }
    ensures trace { LeavesTrace cells.old bytes.now cells.new }
    ensures keeps { KeepsOthers cells.old bytes.now cells.new }
    ensures zeroes { ZeroesBytes bytes.now cells.new }
{
    for i in 0..bytes.len() {
        if bytes[i] < 16 {
            cells[i] = tear_byte(cells[i], bytes[i]);
        }
    }
}

// What is left of a byte that is to lose its upper four bits.
fn tear_byte(cell: u8, byte: u8) -> u8
    requires { byte < 16 }
    ensures blank { cell ≡ 255 → result ≡ byte + 16 }
    ensures low { cell ≢ 255 → result < 16 }
{
    if cell == 0xff { byte + 16 } else { cell & byte }
}

// Each byte gets all bits.
#[tactic(auto, using(crate::proofs::Pages::blank_from_bytes))]
pub(crate) fn set(cells: &mut [u8])
    ensures { is_blank cells.new ≡ true }
{
    for cell in cells.iter_mut() {
        *cell = 0xff;
    }
}
