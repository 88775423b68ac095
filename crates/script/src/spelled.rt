//! Tables of what words spell.
ghost use Rattle.std.specs.Prelude.{◌≡◌, map};
ghost use Rattle.std.specs.Map.{lookup};
ghost use Rattle.std.specs.Str.{bytes_eq};

/// What the first row with this spelling has.
pub fn find_spelled<T: Copy>(rows: &[(&[u8], T)], word: &[u8]) -> Option<T>
    ensures { result ≡ lookup (bytes_eq word.now) (map (λ row. (row.0.now, row.1)) rows.now) }
{
    for (spelling, value) in rows {
        if word == *spelling {
            return Some(*value);
        }
    }
    None
}
