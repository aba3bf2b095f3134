//! A name in lower case, the key of tables of names.
ghost use Rattle.std.specs.Prelude.{◌≡◌, ◌++◌, IfOk, codes};
ghost use Rattle.aadl_names.specs.proof.NameTables.{folded};

use smallvec::SmallVec;
use std::alloc::{AllocError, Global};
use std::cmp::Ordering;
use std::marker::Model;

/// A name in lower case. Up to 16 bytes are stored in the value itself, so that most names allocate
/// nothing. Its model is the list of its bytes, and its order is the order of these lists.
#[derive(Drop)]
pub struct FoldedName {
    bytes: SmallVec<u8, 16>,
}

impl Model for FoldedName {
    ghost use Rattle.std.specs.Prelude.{ℕ, List};

    ghost Value = { List ℕ };

    ghost view = { λ name. name.bytes.items };
}

impl FoldedName {
    /// Converts a name to lower case.
    pub fn of(alloc: Global, name: &str) -> Result<FoldedName, AllocError>
        ensures { IfOk result (λ key. key ≡ folded name.now) }
    {
        let mut bytes = SmallVec::from_slice(alloc, name.as_bytes())?;
        bytes.make_ascii_lowercase();
        Ok(FoldedName { bytes })
    }

    /// Joins two names by a point and converts them to lower case.
    pub fn of_dotted(alloc: Global, first: &str, second: &str) -> Result<FoldedName, AllocError>
        ensures { IfOk result (λ key. key ≡ folded (first.now ++ codes "." ++ second.now)) }
    {
        let mut bytes = SmallVec::from_slice(alloc, first.as_bytes())?;
        bytes.push(b'.')?;
        bytes.extend_from_slice(second.as_bytes())?;
        bytes.make_ascii_lowercase();
        Ok(FoldedName { bytes })
    }
}

impl PartialEq for FoldedName {
    ghost use Rattle.std.specs.Prelude.{nat_eq};
    ghost use Rattle.std.specs.Cmp.{partial_equiv_from_equiv};
    ghost use Rattle.std.specs.Cmp.Lexicographic.{pointwise, nat_list_eq_equiv};

    ghost eq = { pointwise nat_eq };

    ghost laws = { partial_equiv_from_equiv nat_list_eq_equiv };

    fn eq(&self, other: &FoldedName) -> bool {
        self.bytes.as_slice() == other.bytes.as_slice()
    }
}

impl Eq for FoldedName {
    ghost use Rattle.std.specs.Cmp.Lexicographic.{nat_list_eq_equiv};

    ghost laws = { nat_list_eq_equiv };
}

impl PartialOrd for FoldedName {
    ghost use Rattle.std.specs.Prelude.{Some};
    ghost use Rattle.std.specs.Ordering.{nat_cmp};
    ghost use Rattle.std.specs.Cmp.Lexicographic.{slice_cmp, texts_ties, nat_list_cmp_total};
    ghost use Rattle.std.specs.Cmp.{po};

    ghost partial_cmp = { λ x y. Some (slice_cmp nat_cmp x y) };

    ghost laws = { po nat_list_cmp_total texts_ties };

    fn partial_cmp(&self, other: &FoldedName) -> Option<Ordering> {
        Some(self.cmp(other))
    }
}

impl Ord for FoldedName {
    ghost use Rattle.std.proofs.Common.{refl};
    ghost use Rattle.std.specs.Ordering.{nat_cmp};
    ghost use Rattle.std.specs.Cmp.Lexicographic.{slice_cmp, texts_ties, nat_list_cmp_total};

    ghost cmp = { λ x y. slice_cmp nat_cmp x y };

    ghost total = { nat_list_cmp_total };

    ghost matches_partial_cmp = { λ x y. refl };

    ghost matches_eq = { texts_ties };

    fn cmp(&self, other: &FoldedName) -> Ordering {
        self.bytes.as_slice().cmp(other.bytes.as_slice())
    }
}
