//! Whether two places are told apart.
ghost use Rattle.std.specs.Prelude.{◌≡◌, ◌↔◌, Some, IsTrue};
ghost use Rattle.tree_differences.specs.Differing.{is_alike};

use node_format::Place;

/// Whether a place is the same as another one, so that nothing below the two differs.
pub(crate) fn is_same(place: Place, other: Option<Place>) -> bool
    ensures { IsTrue result ↔ (other ≡ Some place) }
{
    match (place, other) {
        (Place::Dir { block }, Some(Place::Dir { block: there })) => block == there,
        (
            Place::File { head, length },
            Some(
                Place::File {
                    head: there,
                    length: bytes,
                },
            ),
        ) => head == there && length == bytes,
        _ => false,
    }
}

/// Whether nothing is told of a place beside another one: both are directories, or the same file.
pub(crate) fn is_alike(place: Place, other: Option<Place>) -> bool
    ensures { result ≡ is_alike (Some place) other }
{
    match (place, other) {
        (Place::Dir { .. }, Some(Place::Dir { .. })) => true,
        (
            Place::File { head, length },
            Some(
                Place::File {
                    head: there,
                    length: bytes,
                },
            ),
        ) => head == there && length == bytes,
        _ => false,
    }
}
