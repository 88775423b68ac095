//! What a driver tells at the start: the image of what its part holds.
ghost use Rattle.std.specs.Prelude.{◌≡◌, ◌⊎◌, ◌<◌, ◌^◌, ℕ, List, ◌++◌, Some, IfSome, IfOk, IfErr, MatchResult, length, vec_len};
ghost use Rattle.std.specs.Io.KnownBytes.{Consumes};
ghost use Rattle.byteorder.specs.Endian.{little_bytes};
ghost use Rattle.flash_model.specs.Device.{Device};
ghost use Rattle.flash_simulation.specs.Simulation.{device_of};
ghost use Rattle.flash_simulation.specs.Images.{image_of, HasImage, HoldsTheSame, IsFresh};
ghost use Rattle.remote_flash.specs.Starts.{start_text, IsStartFault};

use crate::told_flash::ToldFlash;
use fields::u64_at;
use flash_simulation::{ImageFault, SimFlash, decode};
use std::alloc::Global;
use std::io;
use std::io::{Read, Write};
use thiserror::Error;

/// How many bytes the longest image has.
pub const LONGEST_IMAGE: u64 = 67_387_412;

/// Why there is no flash at the start.
#[derive(Clone, Copy, Debug, PartialEq, Eq, Error)]
pub enum StartFault {
    /// The stream of the answers failed, or ended before the image did.
    #[error("answers failed")]
    Read,
    /// What was told is no image, is longer than any, or has no room in memory.
    #[error("image {0}")]
    Image(ImageFault),
}

impl From<io::Error> for StartFault {
    ghost use Rattle.std.specs.Prelude.{◌≡◌};
    ghost use Rattle.remote_flash.specs.declared.start.StartFault.TheVariants.{Read};

    ghost from_gives = { λ _ fault. fault ≡ Read };

    fn from(_error: io::Error) -> StartFault {
        StartFault::Read
    }
}

impl<R: Read + Drop, W: Write + Drop> ToldFlash<R, W> {
    ghost use Rattle.std.specs.Prelude.{◌≡◌, ◌⊎◌, ℕ, List, [], ◌++◌, Some, IfSome, IfOk, IfErr, MatchResult, false};
    ghost use Rattle.std.specs.Io.KnownBytes.{Consumes};
    ghost use Rattle.flash_model.specs.Device.{Device};
    ghost use Rattle.flash_simulation.specs.Images.{image_of, HasImage, HoldsTheSame, IsFresh};
    ghost use Rattle.remote_flash.specs.Drivers.{driver_answers, driver_orders, driver_lost};
    ghost use Rattle.remote_flash.specs.Flashes.{told_device, driver_of};
    ghost use Rattle.remote_flash.specs.Starts.{start_text, IsStartFault};
    ghost use Rattle.flash_simulation.specs.declared.image_fault.ImageFault.TheVariants.{Memory};

    /// The flash of a driver that tells at the start what its part holds: the length of an image in eight
    /// bytes, the lowest first, and the image. Power is on, and nothing is ordered yet: the stream of the
    /// orders is a new one.
    ///
    /// `Read` where the answers fail, or end before the image. Else the fault of the image, which is
    /// `Trailing` for more bytes than any image has.
    pub fn start(alloc: Global, mut answers: R, orders: W) -> Result<ToldFlash<R, W>, StartFault>
        requires unused { IfSome (W.contents orders) (λ all. all ≡ []) }
        // What is told is shown, and nothing more is taken from the answers.
        ensures told { IfOk result (λ flash. Consumes (R.remaining answers) (R.remaining (driver_answers (driver_of flash))) (start_text (image_of (told_device flash)))) }
        ensures ready { IfOk result (λ flash. IsFresh (told_device flash)) }
        ensures orders { IfOk result (λ flash. driver_orders (driver_of flash) ≡ orders) }
        ensures live { IfOk result (λ flash. driver_lost (driver_of flash) ≡ false) }
        // An image that is told is read, where the answers do not fail and memory can be had.
        ensures read { (d : Device) (rest : List ℕ) → HasImage d → R.remaining answers ≡ Some (start_text (image_of d) ++ rest)
            → MatchResult result (λ flash. HoldsTheSame d (told_device flash)) (λ fault. (fault ≡ StartFault.Read) ⊎ (fault ≡ StartFault.Image Memory)) }
        ensures fault { IfErr result (λ fault. IfSome (R.remaining answers) (IsStartFault fault)) }
    {
        let shown = read_flash(alloc, &mut answers)?;
        Ok(ToldFlash::new(shown, answers, orders))
    }
}

/// The flash whose image comes next, after its length.
fn read_flash<R: Read>(alloc: Global, answers: &mut R) -> Result<SimFlash, StartFault>
    ensures told { IfOk result (λ flash. Consumes (R.remaining answers.old) (R.remaining answers.new) (start_text (image_of (device_of flash)))) }
    ensures ready { IfOk result (λ flash. IsFresh (device_of flash)) }
    ensures read { (d : Device) (rest : List ℕ) → HasImage d → R.remaining answers.old ≡ Some (start_text (image_of d) ++ rest)
        → MatchResult result (λ flash. HoldsTheSame d (device_of flash)) (λ fault. (fault ≡ StartFault.Read) ⊎ (fault ≡ StartFault.Image ImageFault.Memory)) }
    ensures fault { IfErr result (λ fault. IfSome (R.remaining answers.old) (IsStartFault fault)) }
{
    let length = read_length(answers)?;
    if length > LONGEST_IMAGE {
        return Err(StartFault::Image(ImageFault::Trailing));
    }
    let bytes = read_bytes(alloc, answers, length)?;
    match decode(alloc, &bytes) {
        Ok(flash) => Ok(flash),
        Err(fault) => Err(StartFault::Image(fault)),
    }
}

/// The number in the next eight bytes, the lowest first.
fn read_length<R: Read>(answers: &mut R) -> Result<u64, StartFault>
    ensures ok { IfOk result (λ length. Consumes (R.remaining answers.old) (R.remaining answers.new) (little_bytes 8 length)) }
    ensures fits { IfOk result (λ length. length < 2 ^ 64) }
    ensures err { IfErr result (λ fault. fault ≡ StartFault.Read) }
{
    let mut eight = [0; 8];
    answers.read_exact(&mut eight)?;
    Ok(number_in(&eight))
}

/// The number in eight bytes, the lowest first.
fn number_in(eight: &[u8]) -> u64
    requires { length eight.now ≡ 8 }
    ensures spelled { little_bytes 8 result ≡ eight.now }
    ensures fits { result < 2 ^ 64 }
{
    u64_at(eight, 0)
}

/// So many bytes, the room for which is made at once.
fn read_bytes<R: Read>(alloc: Global, answers: &mut R, length: u64) -> Result<Vec<u8>, StartFault>
    ensures len { IfOk result (λ bytes. vec_len bytes ≡ length) }
    ensures ok { IfOk result (λ bytes. Consumes (R.remaining answers.old) (R.remaining answers.new) bytes.items) }
    ensures err { IfErr result (λ fault. (fault ≡ StartFault.Read) ⊎ (fault ≡ StartFault.Image ImageFault.Memory)) }
{
    let mut bytes = vec![in alloc; 0; length as usize].map_err(|_| StartFault::Image(
        ImageFault::Memory,
    ))?;
    answers.read_exact(&mut bytes)?;
    Ok(bytes)
}
