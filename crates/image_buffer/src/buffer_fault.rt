//! Why nothing was done with an image in a buffer.
ghost use Rattle.std.specs.Prelude.{◌≡◌};
ghost use Rattle.image_buffer.specs.Faults.{image_number_of};

use flash_simulation::ImageFault;
use fs_types::Fault;
use script_runs::ScriptFault;
use std::error::Error;
use std::fmt;

/// Why nothing was done with an image in a buffer. The buffers are as they were.
#[derive(Clone, Copy, Debug, PartialEq, Eq)]
pub enum BufferFault {
    /// The image is told to be longer than its buffer.
    Length,
    /// The bytes are no image.
    Image(ImageFault),
    /// A format or a mount was refused.
    System(Fault),
    /// The script could not be read to its end.
    Input,
    /// Memory could not be had.
    Memory,
    /// The new image is longer than its buffer.
    ImageRoom,
    /// The new image has room, but the replies are longer than their buffer.
    ReplyRoom,
}

impl BufferFault {
    ghost use Rattle.std.specs.Prelude.{◌≡◌};
    ghost use Rattle.image_buffer.specs.Faults.{buffer_fault_of_image, buffer_fault_of_system, buffer_fault_of_script, buffer_fault_number};

    /// What it means, in words.
    fn text(self) -> &'static str {
        match self {
            BufferFault::Length => "the image is longer than its buffer",
            BufferFault::Image(_) => "no image",
            BufferFault::System(_) => "no system",
            BufferFault::Input => "input failed",
            BufferFault::Memory => "out of memory",
            BufferFault::ImageRoom => "no room for the image",
            BufferFault::ReplyRoom => "no room for the replies",
        }
    }

    /// By why bytes are no image.
    pub(crate) fn of_image(fault: ImageFault) -> BufferFault
        ensures { result ≡ buffer_fault_of_image fault }
    {
        match fault {
            ImageFault::Memory => BufferFault::Memory,
            _ => BufferFault::Image(fault),
        }
    }

    /// By why there is no system.
    pub(crate) fn of_system(fault: Fault) -> BufferFault
        ensures { result ≡ buffer_fault_of_system fault }
    {
        match fault {
            Fault::NoMemory => BufferFault::Memory,
            _ => BufferFault::System(fault),
        }
    }

    /// By why a script did not run to its end. Its replies are written into memory, which alone can
    /// refuse them.
    pub(crate) fn of_script(fault: ScriptFault) -> BufferFault
        ensures { result ≡ buffer_fault_of_script fault }
    {
        match fault {
            ScriptFault::Mount(fault) => BufferFault::of_system(fault),
            ScriptFault::Read => BufferFault::Input,
            ScriptFault::Write | ScriptFault::Memory => BufferFault::Memory,
        }
    }

    /// The number: of a refused system and of want of memory that of the refusal, 1 to 31; 101 to 105
    /// of what is wrong with the bytes of an image; and 110 to 113.
    pub fn number(self) -> u32
        ensures { result ≡ buffer_fault_number self }
    {
        match self {
            BufferFault::System(fault) => u32::from(fault.number()),
            BufferFault::Memory => 25,
            BufferFault::Image(fault) => image_number(fault),
            BufferFault::Length => 110,
            BufferFault::ImageRoom => 111,
            BufferFault::ReplyRoom => 112,
            BufferFault::Input => 113,
        }
    }
}

/// The number of what is wrong with the bytes of an image.
fn image_number(fault: ImageFault) -> u32
    ensures { result ≡ image_number_of fault }
{
    match fault {
        ImageFault::NotImage => 101,
        ImageFault::BadGeometry => 102,
        ImageFault::BadState => 103,
        ImageFault::Truncated => 104,
        ImageFault::Trailing => 105,
        ImageFault::Memory => 25,
    }
}

impl fmt::Display for BufferFault {
    fn fmt<W: fmt::Write>(&self, f: &mut fmt::Formatter<W>) -> fmt::Result {
        f.write_str(self.text())?;
        match self {
            BufferFault::Image(fault) => write!(f, ": {fault}"),
            BufferFault::System(fault) => write!(f, ": {fault}"),
            _ => Ok(()),
        }
    }
}

impl Error for BufferFault {}
