//! The law of images. The function does nothing: its contract is the law.
ghost use Rattle.std.specs.Prelude.{◌≡◌};
ghost use Rattle.flash_model.specs.Device.{Device};
ghost use Rattle.flash_model.specs.Reading.{OnlyReads};
ghost use Rattle.flash_simulation.specs.Images.{image_of};

/// Reads alone leave the image of a flash as it was: so a script that programs and erases nothing
/// changes no file.
pub fn image_laws()
    ensures { (d e : Device) → OnlyReads d e → image_of e ≡ image_of d }
{}
