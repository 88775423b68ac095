//! The cyclic redundancy check of 32 bits of IEEE 802.3.
ghost use Rattle.std.specs.Prelude.{◌≡◌};
ghost use Rattle.dense_nor.specs.Sums.{crc_of, shifted, with_byte};

const POLYNOMIAL: u32 = 0xEDB8_8320;

const ALL: u32 = 0xFFFF_FFFF;

/// The CRC-32 of bytes, as zip and PNG have it.
pub fn crc32(bytes: &[u8]) -> u32
    ensures { result ≡ crc_of bytes.now }
{
    let mut crc = ALL;
    for byte in bytes {
        crc = take_byte(crc, *byte);
    }
    crc ^ ALL
}

// Takes a byte in.
fn take_byte(crc: u32, byte: u8) -> u32
    ensures { result ≡ with_byte crc byte }
{
    let mut crc = crc ^ (byte as u32);
    for _ in 0..8u8 {
        crc = shift(crc);
    }
    crc
}

// Shifts the lowest bit out.
#[tactic(auto, unfolding(crate::specs::Sums::shifted))]
fn shift(crc: u32) -> u32
    ensures { result ≡ shifted crc }
{
    if crc % 2 == 1 {
        (crc / 2) ^ POLYNOMIAL
    } else {
        crc / 2
    }
}
