//! Names of checkpoints.
ghost use Rattle.std.specs.Prelude.{◌≡◌, Bool, true, false, ◌&&◌, length, nat_le, IfOk, IfErr};
ghost use Rattle.std.specs.Cmp.{partial_order_from_own_ties};
ghost use Rattle.std.specs.Cmp.Rules.{comparing};
ghost use Rattle.std.specs.List.{list_all};
ghost use Rattle.std.specs.Ordering.{as_partial_cmp};
ghost use Rattle.std.proofs.Common.{rules};
ghost use Rattle.fs_types.specs.Names.{is_checkpoint_name, same_name, name_cmp};

use crate::fault::Fault;
use crate::limits::MAX_CHECKPOINT_BYTES;
use arrayvec::ArrayVec;
use std::alloc::AllocError;
use std::cmp::Ordering;
use std::marker::Model;

/// The name of a checkpoint: 1 to 31 bytes from 0x21 to 0x7E. It takes no memory.
#[derive(Debug, Drop)]
pub struct CpName {
    bytes: ArrayVec<u8, MAX_CHECKPOINT_BYTES>,
}

impl Model for CpName {
    ghost use Rattle.std.specs.Prelude.{◌≡◌, List, ℕ, true};
    ghost use Rattle.fs_types.specs.Names.{is_checkpoint_name};

    ghost Value = { List ℕ };

    ghost view = { λ n. n.bytes.items };

    ghost invariant = { λ n. is_checkpoint_name n.bytes.items ≡ true };
}

impl CpName {
    /// The name that bytes spell; [`Fault::Invalid`] for any other form.
    pub fn parse(bytes: &[u8]) -> Result<CpName, Fault>
        ensures lawful { IfOk result (λ _. is_checkpoint_name bytes.now ≡ true) }
        ensures name { IfOk result (λ name. name ≡ bytes.now) }
        ensures refused { IfErr result (λ fault. fault ≡ Fault.Invalid) }
        ensures only { IfErr result (λ _. is_checkpoint_name bytes.now ≡ false) }
    {
        if bytes.is_empty() {
            return Err(Fault::Invalid);
        }
        if !are_printable(bytes) {
            return Err(Fault::Invalid);
        }
        let mut name = ArrayVec::new();
        match name.try_extend_from_slice(bytes) {
            Ok(()) => Ok(CpName { bytes: name }),
            Err(_) => Err(Fault::Invalid),
        }
    }

    /// The bytes, 1 to 31.
    pub fn as_bytes(&self) -> &[u8]
        ensures bytes { result.now ≡ self.now }
        ensures lawful { is_checkpoint_name self.now ≡ true }
    {
        self.bytes.as_slice()
    }
}

fn are_printable(bytes: &[u8]) -> bool
    ensures { result ≡ list_all (λ b. nat_le 33 b && nat_le b 126) bytes.now }
{
    bytes.iter().all(|b| 0x21 <= *b && *b <= 0x7e)
}

impl Clone for CpName {
    ghost use Rattle.std.specs.Prelude.{◌≡◌, ⊤, IsOkAnd};

    ghost is_clone = { λ old new. new ≡ old };

    ghost is_infallible = { λ _. ⊤ };

    fn clone(&self) -> Result<Self, AllocError>
        ensures { IsOkAnd result (λ name. name ≡ self.now) }
    {
        Ok(CpName {
            bytes: self.bytes.clone()?,
        })
    }
}

impl PartialEq for CpName {
    ghost eq = { same_name };

    ghost laws = { Prim.search (comparing, rules) };

    fn eq(&self, other: &CpName) -> bool {
        self.as_bytes() == other.as_bytes()
    }
}

impl Eq for CpName {
    ghost laws = { Prim.search (comparing, rules) };
}

impl Ord for CpName {
    ghost cmp = { name_cmp };

    ghost total = { Prim.search (comparing, rules) };

    ghost matches_partial_cmp = { Prim.search (comparing, rules) };

    ghost matches_eq = { Prim.search (comparing, rules) };

    fn cmp(&self, other: &CpName) -> Ordering {
        self.as_bytes().cmp(other.as_bytes())
    }
}

impl PartialOrd for CpName {
    ghost partial_cmp = { as_partial_cmp name_cmp };

    ghost laws = { partial_order_from_own_ties (Prim.search (comparing, rules)) (Prim.search (comparing, rules)) };

    fn partial_cmp(&self, other: &CpName) -> Option<Ordering> {
        Some(self.cmp(other))
    }
}
