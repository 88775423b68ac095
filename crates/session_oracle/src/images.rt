//! Images of the flashes that scripts begin on.
use crate::scripts::Script;
use flash_simulation::{SimFlash, decode, encode};
use fs_types::Fault;
use std::alloc::Global;
use undofs::format;

/// The image of a new file system of the sizes of a script.
pub fn new_image(alloc: Global, script: &Script<'_>) -> Result<Vec<u8>, Fault> {
    let mut flash = SimFlash::new(alloc, script.geometry, &[])?;
    format(alloc, &mut flash, script.history)?;
    encode(alloc, &flash).map_err(|_| Fault::NoMemory)
}

/// The flash of an image, with the power on and nothing counted. [`Fault::Invalid`] where it is none.
pub fn flash_of(alloc: Global, image: &[u8]) -> Result<SimFlash, Fault> {
    decode(alloc, image).map_err(|_| Fault::Invalid)
}
