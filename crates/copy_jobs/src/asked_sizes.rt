//! What the copy of an image is to have.
ghost use Rattle.std.specs.Prelude.{◌≡◌, ◌≢◌, ◌<◌, ◌^◌, IfOk, OnOk, IfErr};
ghost use Rattle.fs_types.specs.declared.fault.Fault.{Fault};
ghost use Rattle.flash_simulation.specs.Simulation.{device_of};
ghost use Rattle.copy_jobs.specs.Copied as spec;

use flash_model::{Flash, Geometry};
use flash_simulation::SimFlash;
use fs_types::Fault;
use image_jobs::Failure;

/// What a copy is to have. What is not given is as in the image that is copied.
#[derive(Clone, Copy)]
pub struct AskedSizes {
    /// Bytes of a page.
    pub page: Option<u32>,
    /// Pages of a block.
    pub pages: Option<u32>,
    /// Blocks of the flash.
    pub blocks: Option<u32>,
    /// Versions that are kept.
    pub history: Option<u32>,
}

/// The sizes of the copy of a flash of these sizes.
pub(crate) fn sizes_of(asked: AskedSizes, sizes: Geometry) -> Geometry
    ensures { result ≡ spec.sizes_of asked sizes }
{
    Geometry {
        page: asked.page.unwrap_or(sizes.page),
        pages: asked.pages.unwrap_or(sizes.pages),
        blocks: asked.blocks.unwrap_or(sizes.blocks),
    }
}

/// How many versions the copy of a file system keeps that keeps so many.
pub(crate) fn limit_of(asked: AskedSizes, limit: usize) -> u32
    requires { limit < 2 ^ 32 }
    ensures { result ≡ spec.limit_of asked limit }
{
    asked.history.unwrap_or(limit as u32)
}

/// A flash, where it has these sizes.
pub(crate) fn of_sizes(flash: SimFlash, sizes: Geometry) -> Result<SimFlash, Failure>
    ensures ok { IfOk result (λ same. same ≡ flash) }
    ensures sizes { OnOk result ((device_of flash).geometry ≡ sizes) }
    ensures err { IfErr result (λ failure. ((device_of flash).geometry ≢ sizes) × (failure ≡ Failure.System Fault.BadGeometry)) }
{
    let is_same = flash.geometry() == sizes;
    if is_same {
        Ok(flash)
    } else {
        Err(Failure::System(Fault::BadGeometry))
    }
}
