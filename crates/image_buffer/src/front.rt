//! Bytes at the front of a buffer.
ghost use Rattle.std.specs.Prelude.{◌≤◌, length};
ghost use Rattle.image_buffer.specs.Buffers.{HoldsAtFront};

/// Puts bytes at the front of a buffer that has room for them, and tells how many.
pub(crate) fn put_front(bytes: &[u8], buffer: &mut [u8]) -> usize
    requires { length bytes.now ≤ length buffer.old }
    ensures { HoldsAtFront buffer.old bytes.now result buffer.new }
{
    buffer[..bytes.len()].copy_from_slice(bytes);
    bytes.len()
}
