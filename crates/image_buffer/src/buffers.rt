//! What is done with an image in a buffer.
ghost use Rattle.std.specs.Prelude.{◌≡◌, Ok, IfOk, IfErr};
ghost use Rattle.flash_simulation.specs.Simulation.{device_of};
ghost use Rattle.flash_simulation.specs.declared.sim_flash.SimFlash.{SimFlash};
ghost use Rattle.flash_simulation.specs.Images.{image_of};
ghost use Rattle.script_runs.specs.Flashes.{IsDecoded, IsMade};
ghost use Rattle.image_buffer.specs.Buffers.{BufferFormatEnds, BufferCheckEnds, BufferRunEnds, MakeRefusal, DecodeRefusal, PlayRefusal, IsPlayed, buffers};
ghost use Rattle.image_buffer.specs.declared.buffer_fault.BufferFault.{BufferFault};

use crate::buffer_fault::BufferFault;
use crate::front::put_front;
use flash_model::Geometry;
use flash_simulation::{SimFlash, decode, encode};
use script_runs::{format_as_planned, mount_as_planned, run_script};
use std::alloc::Global;

/// How many bytes were written at the front of each buffer.
#[derive(Clone, Copy, Debug, PartialEq, Eq)]
pub struct Written {
    /// Of the image.
    pub image: usize,
    /// Of the replies.
    pub replies: usize,
}

/// What a script that ran to its end leaves.
#[derive(Drop)]
struct Played {
    /// The image of the flash.
    image: Vec<u8>,
    replies: Vec<u8>,
}

/// Makes the image of a flash of these sizes with an empty file system that keeps so many versions, at
/// the front of a buffer, and tells how many bytes it has.
///
/// `System` with why the sizes, the number of versions or the format are refused, `ImageRoom` where the
/// image is longer than the buffer, `Memory` where memory could not be had. The buffer is then as it
/// was.
pub fn format_buffer(
    alloc: Global,
    sizes: Geometry,
    history: u32,
    buffer: &mut [u8],
) -> Result<usize, BufferFault>
    ensures { BufferFormatEnds sizes history buffer.old result buffer.new }
{
    let flash = make_flash(alloc, sizes, history)?;
    let image = spell_flash(alloc, &flash)?;
    if image.len() > buffer.len() {
        return Err(BufferFault::ImageRoom);
    }
    Ok(put_front(&image, buffer))
}

/// Mounts the flash that the bytes of an image spell.
///
/// `Image` where they are no image, `System` where the mount is refused, `Memory` where memory could
/// not be had.
pub fn check_buffer(alloc: Global, image: &[u8]) -> Result<(), BufferFault>
    ensures { BufferCheckEnds image.now result }
{
    let mut flash = read_flash(alloc, image)?;
    match mount_as_planned(alloc, &mut flash) {
        Ok(_) => Ok(()),
        Err(fault) => Err(BufferFault::of_system(fault)),
    }
}

/// Runs a script, of one line or more, on the image of so many bytes at the front of a buffer, and puts
/// the image of the flash that is left in its place, and the replies at the front of their buffer. The
/// lines and replies are those of docs/scripts.md. What was not synced is not found by the next script.
///
/// `Length` where the buffer is shorter than the image is told to be, `Image` where its bytes are no
/// image, `System` where the mount is refused, `Input` where the script has too many lines to be
/// counted, `ImageRoom` and then `ReplyRoom` where the new image or the replies are longer than their
/// buffer, `Memory` where memory could not be had. Both buffers are then as they were.
pub fn run_buffer(
    alloc: Global,
    buffer: &mut [u8],
    count: usize,
    script: &[u8],
    replies: &mut [u8],
) -> Result<Written, BufferFault>
    ensures { BufferRunEnds (buffers buffer.old replies.old) count script.now result (buffers buffer.new replies.new) }
{
    if count > buffer.len() {
        return Err(BufferFault::Length);
    }
    let played = play(alloc, &buffer[..count], script)?;
    if played.image.len() > buffer.len() {
        return Err(BufferFault::ImageRoom);
    }
    if played.replies.len() > replies.len() {
        return Err(BufferFault::ReplyRoom);
    }
    Ok(Written {
        image: put_front(&played.image, buffer),
        replies: put_front(&played.replies, replies),
    })
}

/// A new flash of these sizes with an empty file system.
fn make_flash(alloc: Global, sizes: Geometry, history: u32) -> Result<SimFlash, BufferFault>
    ensures ok { IfOk result (IsMade sizes history) }
    ensures err { IfErr result (MakeRefusal sizes history) }
{
    let mut flash = match SimFlash::new(alloc, sizes, &[]) {
        Ok(flash) => flash,
        Err(fault) => return Err(BufferFault::of_system(fault)),
    };
    match format_as_planned(alloc, &mut flash, history) {
        Ok(()) => Ok(flash),
        Err(fault) => Err(BufferFault::of_system(fault)),
    }
}

/// The flash that bytes spell.
fn read_flash(alloc: Global, bytes: &[u8]) -> Result<SimFlash, BufferFault>
    ensures ok { IfOk result (IsDecoded bytes.now) }
    ensures err { IfErr result (DecodeRefusal bytes.now) }
{
    match decode(alloc, bytes) {
        Ok(flash) => Ok(flash),
        Err(fault) => Err(BufferFault::of_image(fault)),
    }
}

/// The bytes that spell a flash. `Memory` alone.
fn spell_flash(alloc: Global, flash: &SimFlash) -> Result<Vec<u8>, BufferFault>
    ensures ok { IfOk result (λ image. image.items ≡ image_of (device_of flash.now)) }
    ensures memory { IfErr result (λ fault. fault ≡ BufferFault.Memory) }
{
    match encode(alloc, flash) {
        Ok(image) => Ok(image),
        Err(_) => Err(BufferFault::Memory),
    }
}

/// Runs a script on the flash that bytes spell.
fn play(alloc: Global, bytes: &[u8], script: &[u8]) -> Result<Played, BufferFault>
    ensures ok { IfOk result (IsPlayed bytes.now script.now) }
    ensures err { IfErr result (PlayRefusal bytes.now script.now) }
{
    let mut flash = read_flash(alloc, bytes)?;
    let mut reader = script;
    let mut replies = Vec::new(alloc);
    match run_script(alloc, &mut reader, &mut replies, &mut flash) {
        Ok(()) => Ok(Played {
            image: spell_flash(alloc, &flash)?,
            replies,
        }),
        Err(fault) => Err(BufferFault::of_script(fault)),
    }
}
