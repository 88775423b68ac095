//! The laws of trees and of files' bytes. Each function does nothing: its contract is the law.
ghost use Rattle.plain_trees.specs.Laws.{PutLaw, RemoveLaw, MoveLaw, SameTreeLaw, ShapeLaw, ContentsLaw, GraftLaw, ListingLaw, LookupLaw, OverwrittenLaw, ResizedLaw};

/// What put, remove and move leave at every path of a tree, and when a tree stays one.
pub fn edit_laws()
    ensures put { PutLaw }
    ensures remove { RemoveLaw }
    ensures moved { MoveLaw }
    ensures same { SameTreeLaw }
    ensures shapes { ShapeLaw }
{}

/// The plain edits as functions from paths, and as grafts: all that stands at a path and below is
/// replaced.
pub fn graft_laws()
    ensures contents { ContentsLaw }
    ensures grafts { GraftLaw }
{}

/// What a listing and path resolution say of a tree.
pub fn lookup_laws()
    ensures listing { ListingLaw }
    ensures lookup { LookupLaw }
{}

/// What `pwrite` and `ftruncate` leave of a file, byte by byte.
pub fn file_laws()
    ensures overwritten { OverwrittenLaw }
    ensures resized { ResizedLaw }
{}
