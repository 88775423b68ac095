//! Paths as lists of names: what is left of one after a beginning of it, and its directory.
ghost use Rattle.std.specs.Prelude.{◌≡◌, [], ◌∷◌, ◌++◌};
ghost use Rattle.std.specs.Option.{option_map};
ghost use Rattle.fs_types.specs.Names.{same_path};
ghost use Rattle.plain_trees.specs.Contents.{beneath, begins, parent_of};

use fs_types::Name;

/// What is left of a path after a beginning of it; none where it does not begin so.
pub fn rest_of<'a>(front: &[Name], path: &'a [Name]) -> Option<&'a [Name]>
    ensures { option_map (λ rest. rest.now) result ≡ beneath front.now path.now }
{
    let Some((name, front)) = front.split_first() else {
        return Some(path);
    };
    let Some((first, rest)) = path.split_first() else {
        return None;
    };
    if name != first {
        return None;
    }
    rest_of(front, rest)
}

/// Whether the first path begins the second.
pub fn is_beginning(front: &[Name], path: &[Name]) -> bool
    ensures { result ≡ begins front.now path.now }
{
    rest_of(front, path).is_some()
}

/// The names of the directory that a path stands in; none for the root.
pub fn parent(path: &[Name]) -> &[Name]
    ensures { result.now ≡ parent_of path.now }
{
    match path.split_last() {
        Some((_, parent)) => parent,
        None => path,
    }
}

/// Whether a path is that of a name in a directory.
pub fn is_path_in(directory: &[Name], name: &Name, path: &[Name]) -> bool
    ensures { result ≡ same_path (directory.now ++ name.now ∷ []) path.now }
{
    match path.split_last() {
        Some((last, parent)) => parent == directory && last == name,
        None => false,
    }
}
