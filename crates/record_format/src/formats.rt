//! The formats of a record.
ghost use Rattle.std.specs.Prelude.{◌≡◌};
ghost use Rattle.record_format.specs.Payloads as payload;

use fs_types::MAX_VERSIONS;

/// The format that is written.
pub const FORMAT: u32 = 2;

/// The format before it, which is read too.
pub const OLD_FORMAT: u32 = 1;

/// The most versions that a record of the old format keeps.
pub const OLD_MAX_VERSIONS: u16 = 64;

/// Whether records of a format are read.
pub(crate) fn is_format(format: u32) -> bool
    ensures { result ≡ payload.is_format format }
{
    format == OLD_FORMAT || format == FORMAT
}

/// The most versions that a record of a format keeps.
pub(crate) fn most_versions(format: u32) -> u16
    ensures { result ≡ payload.most_versions format }
{
    if format == OLD_FORMAT {
        OLD_MAX_VERSIONS
    } else {
        MAX_VERSIONS
    }
}
