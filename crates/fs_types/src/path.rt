//! Paths, read from the bytes that spell them.
ghost use Rattle.std.specs.Prelude.{◌≡◌, Bool, true, false, not, ◌==◌, ◌&&◌, ◌<◌, ◌≤◌, Some, None, [], ◌∷◌, ◌++◌, length, IfOk, IfErr, unwrap_or, nat_le, map};
ghost use Rattle.std.specs.Cmp.{partial_order_from_own_ties};
ghost use Rattle.std.specs.Cmp.Rules.{comparing};
ghost use Rattle.std.specs.Cmp.Lexicographic.{lists_ties, texts_ties};
ghost use Rattle.std.specs.List.{list_all, slice_split};
ghost use Rattle.std.specs.Ordering.{as_partial_cmp};
ghost use Rattle.std.proofs.Common.{rules};
ghost use Rattle.fs_types.specs.Names.{is_lawful, is_dots, is_name, is_path, path_refusal, components_refusal, components_of, same_path, name_cmp, path_cmp};

use crate::fault::Fault;
use crate::limits::{MAX_NAME_BYTES, MAX_NAMES};
use crate::name::Name;
use std::alloc::{AllocError, Global};
use std::cmp::Ordering;
use std::marker::Model;

/// An absolute path: 0 to 16 names from the root down. The root is the path with no name.
#[derive(Debug, Drop)]
pub struct Path {
    names: Vec<Name>,
}

impl Model for Path {
    ghost use Rattle.std.specs.Prelude.{◌≡◌, List, ℕ, true};
    ghost use Rattle.fs_types.specs.Names.{is_path};

    ghost Value = { List (List ℕ) };

    ghost view = { λ p. p.names.items };

    ghost invariant = { λ p. is_path p.names.items ≡ true };
}

impl Path {
    /// The root.
    pub fn root(alloc: Global) -> Self
        ensures { result ≡ [] }
    {
        Path {
            names: Vec::new(alloc),
        }
    }

    /// The path of these names, from the root down.
    pub fn from_names(names: Vec<Name>) -> Self
        requires { is_path names.items ≡ true }
        ensures { result ≡ names.items }
    {
        Path { names }
    }

    /// The names from the root down, at most 16.
    pub fn names(&self) -> &[Name]
        ensures names { result.now ≡ self.now }
        ensures lawful { is_path self.now ≡ true }
    {
        self.names.as_slice()
    }

    /// Whether this is the root.
    pub fn is_root(&self) -> bool
        ensures { result ≡ (length self.now == 0) }
    {
        self.names.is_empty()
    }

    /// The path with one name more.
    pub fn join(&self, name: &Name) -> Result<Path, AllocError>
        requires { length self.now < MAX_NAMES }
        ensures { IfOk result (λ path. path ≡ self.now ++ name.now ∷ []) }
    {
        let Path { mut names } = self.clone()?;
        names.push(name.clone()?)?;
        Ok(Path { names })
    }

    /// The path that bytes spell: `/` for the root, else names with a `/` before each.
    ///
    /// [`Fault::NoEntry`] for no bytes; [`Fault::Invalid`] where the first byte is no `/` or a name is
    /// empty, `.`, `..` or has a NUL; else [`Fault::NameTooLong`] where a name has over 64 bytes or
    /// there are over 16 names; else [`Fault::NoMemory`] where memory is not to be had.
    pub fn parse(alloc: Global, bytes: &[u8]) -> Result<Path, Fault>
        ensures lawful { IfOk result (λ _. path_refusal bytes.now ≡ None) }
        ensures path { IfOk result (λ path. path ≡ components_of bytes.now) }
        ensures refused { IfErr result (λ fault. fault ≡ unwrap_or (path_refusal bytes.now) Fault.NoMemory) }
    {
        match bytes {
            [] => Err(Fault::NoEntry),
            [b'/'] => Ok(Path::root(alloc)),
            [b'/', rest @ ..] => match refused_components(rest) {
                Some(fault) => Err(fault),
                None => Ok(path_of_components(alloc, rest)?),
            },
            _ => Err(Fault::Invalid),
        }
    }
}

/// Whether a name is not empty, has no `/` and no NUL, and is neither `.` nor `..`.
pub fn is_lawful_name(name: &[u8]) -> bool
    ensures { result ≡ is_lawful name.now }
{
    if name.is_empty() {
        return false;
    }
    if is_dot_name(name) {
        return false;
    }
    has_no_separator(name)
}

fn is_dot_name(name: &[u8]) -> bool
    ensures { result ≡ is_dots name.now }
{
    if name == &b"."[..] {
        return true;
    }
    name == &b".."[..]
}

fn has_no_separator(name: &[u8]) -> bool
    ensures { result ≡ list_all (λ b. not (b == 0) && not (b == 47)) name.now }
{
    name.iter().all(|b| *b != 0 && *b != b'/')
}

fn are_lawful(rest: &[u8]) -> bool
    ensures { result ≡ list_all is_lawful (slice_split (λ b. b == 47) rest.now) }
{
    rest.split(|b| *b == b'/').all(|name| is_lawful_name(name))
}

fn are_names(rest: &[u8]) -> bool
    ensures { result ≡ list_all is_name (slice_split (λ b. b == 47) rest.now) }
{
    rest.split(|b| *b == b'/').all(|name| is_lawful_name(name) && name.len() <= MAX_NAME_BYTES)
}

fn count_components(rest: &[u8]) -> usize
    ensures { result ≡ length (slice_split (λ b. b == 47) rest.now) }
{
    rest.split(|b| *b == b'/').count()
}

/// Why the names between slashes make no path.
fn refused_components(rest: &[u8]) -> Option<Fault>
    ensures { result ≡ components_refusal (slice_split (λ b. b == 47) rest.now) }
{
    if !are_lawful(rest) {
        return Some(Fault::Invalid);
    }
    if !are_names(rest) {
        return Some(Fault::NameTooLong);
    }
    if count_components(rest) > MAX_NAMES {
        return Some(Fault::NameTooLong);
    }
    None
}

fn path_of_components(alloc: Global, rest: &[u8]) -> Result<Path, AllocError>
    requires { is_path (slice_split (λ b. b == 47) rest.now) ≡ true }
    ensures { IfOk result (λ path. path ≡ slice_split (λ b. b == 47) rest.now) }
{
    let pieces = pieces_of(alloc, rest)?;
    let names = names_of(alloc, &pieces)?;
    Ok(Path { names })
}

fn pieces_of(alloc: Global, rest: &[u8]) -> Result<Vec<&[u8]>, AllocError>
    ensures { IfOk result (λ pieces. map (λ p. p.now) pieces.items ≡ slice_split (λ b. b == 47) rest.now) }
{
    rest.split(|b| *b == b'/').collect(alloc)
}

fn names_of(alloc: Global, pieces: &[&[u8]]) -> Result<Vec<Name>, AllocError>
    requires { list_all is_name (map (λ p. p.now) pieces.now) ≡ true }
    ensures { IfOk result (λ names. names.items ≡ map (λ p. p.now) pieces.now) }
{
    let mut names = Vec::with_capacity(alloc, pieces.len())?;
    for piece in pieces {
        names.push(Name::new(alloc, piece)?)?;
    }
    Ok(names)
}

impl Clone for Path {
    ghost use Rattle.std.specs.Prelude.{◌≡◌, IfOk};

    ghost is_clone = { λ old new. new ≡ old };

    fn clone(&self) -> Result<Self, AllocError>
        ensures { IfOk result (λ path. path ≡ self.now) }
    {
        Ok(Path {
            names: self.names.clone()?,
        })
    }
}

impl PartialEq for Path {
    ghost eq = { same_path };

    ghost laws = { Prim.search (comparing, rules) };

    fn eq(&self, other: &Path) -> bool {
        self.names() == other.names()
    }
}

impl Eq for Path {
    ghost laws = { Prim.search (comparing, rules) };
}

impl Ord for Path {
    ghost cmp = { path_cmp };

    ghost total = { Prim.search (comparing, rules) };

    ghost matches_partial_cmp = { Prim.search (comparing, rules) };

    ghost matches_eq = { lists_ties name_cmp texts_ties };

    fn cmp(&self, other: &Path) -> Ordering {
        self.names().cmp(other.names())
    }
}

impl PartialOrd for Path {
    ghost partial_cmp = { as_partial_cmp path_cmp };

    ghost laws = { partial_order_from_own_ties (Prim.search (comparing, rules)) (lists_ties name_cmp texts_ties) };

    fn partial_cmp(&self, other: &Path) -> Option<Ordering> {
        Some(self.cmp(other))
    }
}
