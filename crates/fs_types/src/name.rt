//! Names of directory entries, and paths.
ghost use Rattle.std.specs.Prelude.{◌≡◌, Bool, true, false, Some, None, ◌⊎◌, length, IfOk, IfErr, MatchResult, unwrap_or};
ghost use Rattle.std.specs.Option.{option_copied};
ghost use Rattle.std.specs.Cmp.{partial_order_from_own_ties};
ghost use Rattle.std.specs.Cmp.Rules.{comparing};
ghost use Rattle.std.specs.Ordering.{as_partial_cmp, on};
ghost use Rattle.std.proofs.Common.{rules};
ghost use Rattle.fs_types.specs.Names.{is_after, is_name, is_path, name_refusal, path_refusal, components_of, same_name, same_path, name_cmp, path_cmp};

use crate::fault::Fault;
use crate::limits::MAX_NAME_BYTES;
use crate::path::is_lawful_name;
use smallvec::SmallVec;
use std::alloc::{AllocError, Global};
use std::cmp::Ordering;
use std::marker::Model;

/// A name: 1 to 64 bytes, none of them `/` or NUL, and neither `.` nor `..`.
#[derive(Debug, Drop)]
pub struct Name {
    bytes: SmallVec<u8, 16>,
}

impl Model for Name {
    ghost use Rattle.std.specs.Prelude.{◌≡◌, List, ℕ, true};
    ghost use Rattle.fs_types.specs.Names.{is_name};

    ghost Value = { List ℕ };

    ghost view = { λ n. n.bytes.items };

    ghost invariant = { λ n. is_name n.bytes.items ≡ true };
}

impl Name {
    /// The name of these bytes.
    pub fn new(alloc: Global, bytes: &[u8]) -> Result<Self, AllocError>
        requires { is_name bytes.now ≡ true }
        ensures { IfOk result (λ name. name ≡ bytes.now) }
    {
        Ok(Name {
            bytes: SmallVec::from_slice(alloc, bytes)?,
        })
    }

    /// The name that bytes spell.
    ///
    /// [`Fault::Invalid`] for no bytes, `.`, `..` and bytes with `/` or NUL; else [`Fault::NameTooLong`]
    /// for over 64 bytes; else [`Fault::NoMemory`] where memory is not to be had.
    pub fn parse(alloc: Global, bytes: &[u8]) -> Result<Self, Fault>
        ensures lawful { IfOk result (λ _. name_refusal bytes.now ≡ None) }
        ensures name { IfOk result (λ name. name ≡ bytes.now) }
        ensures refused { IfErr result (λ fault. fault ≡ unwrap_or (name_refusal bytes.now) Fault.NoMemory) }
    {
        if !is_lawful_name(bytes) {
            return Err(Fault::Invalid);
        }
        if bytes.len() > MAX_NAME_BYTES {
            return Err(Fault::NameTooLong);
        }
        Ok(Name::new(alloc, bytes)?)
    }

    /// The bytes, 1 to 64.
    pub fn as_bytes(&self) -> &[u8]
        ensures bytes { result.now ≡ self.now }
        ensures lawful { is_name self.now ≡ true }
    {
        self.bytes.as_slice()
    }
}

/// Whether a name comes after another one in byte order; where none is given, each does.
pub fn is_after(from: Option<&Name>, name: &[u8]) -> bool
    ensures { result ≡ is_after (option_copied from.entry) name.now }
{
    match from {
        Some(from) => from.as_bytes().cmp(name).is_lt(),
        None => true,
    }
}

impl Clone for Name {
    ghost use Rattle.std.specs.Prelude.{◌≡◌, IfOk};

    ghost is_clone = { λ old new. new ≡ old };

    fn clone(&self) -> Result<Self, AllocError>
        ensures { IfOk result (λ name. name ≡ self.now) }
    {
        Ok(Name {
            bytes: self.bytes.clone()?,
        })
    }
}

impl PartialEq for Name {
    ghost eq = { same_name };

    ghost laws = { Prim.search (comparing, rules) };

    fn eq(&self, other: &Name) -> bool {
        self.as_bytes() == other.as_bytes()
    }
}

impl Eq for Name {
    ghost laws = { Prim.search (comparing, rules) };
}

impl Ord for Name {
    ghost cmp = { name_cmp };

    ghost total = { Prim.search (comparing, rules) };

    ghost matches_partial_cmp = { Prim.search (comparing, rules) };

    ghost matches_eq = { Prim.search (comparing, rules) };

    fn cmp(&self, other: &Name) -> Ordering {
        self.as_bytes().cmp(other.as_bytes())
    }
}

impl PartialOrd for Name {
    ghost partial_cmp = { as_partial_cmp name_cmp };

    ghost laws = { partial_order_from_own_ties (Prim.search (comparing, rules)) (Prim.search (comparing, rules)) };

    fn partial_cmp(&self, other: &Name) -> Option<Ordering> {
        Some(self.cmp(other))
    }
}
