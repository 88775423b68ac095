//! What is true of images, whatever the code does.
ghost use Rattle.std.specs.Prelude.{◌≡◌, ◌≤◌, ℕ, List, ◌++◌, [], length};
ghost use Rattle.flash_model.specs.Device.{Device};
ghost use Rattle.flash_simulation.specs.Simulation.{device_of};
ghost use Rattle.flash_simulation.specs.declared.image_fault.ImageFault.{ImageFault};
ghost use Rattle.flash_simulation.specs.Images.{image_of, HasImage, HoldsTheSame, IsFault};

use crate::sim_flash::SimFlash;

/// Each flash in memory has an image.
pub fn each_flash_has_an_image(flash: &SimFlash)
    ensures { HasImage (device_of flash.now) }
{
    let _ = flash;
}

/// No image begins another, so that bytes are the image of one flash at most.
pub fn images_are_told_apart()
    ensures same { (d e : Device) → HasImage d → HasImage e → image_of d ≡ image_of e → HoldsTheSame d e }
    ensures whole { (d e : Device) (more : List ℕ) → HasImage d → HasImage e → image_of d ++ more ≡ image_of e → more ≡ [] }
{}

/// Bytes have one fault at most, and an image has none.
pub fn faults_are_told_apart()
    ensures one { (f g : ImageFault) (bytes : List ℕ) → IsFault f bytes → IsFault g bytes → f ≡ g }
    ensures none { (d : Device) (f : ImageFault) → HasImage d → ¬ IsFault f (image_of d) }
{}

/// The longest image is that of 16,384 blocks of 16 pages of 256 bytes, all of them with data.
pub fn images_are_short()
    ensures { (d : Device) → HasImage d → length (image_of d) ≤ 67387412 }
{}
