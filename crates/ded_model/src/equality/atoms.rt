//! When atoms of two kinds are equal.
ghost use Rattle.ded_model.specs.Equality.{equal_by_kind, fed_by_kind, kinds_per, kinds_equiv, kinds_Alike};

use crate::tuple::BothAtom;
use std::hash::{Hash, Hasher};

impl<A: PartialEq, B: PartialEq> PartialEq for BothAtom<A, B> {
    ghost eq = { equal_by_kind A.eq B.eq };

    ghost laws = { kinds_per A.laws B.laws };

    fn eq(&self, other: &BothAtom<A, B>) -> bool {
        match (self, other) {
            (BothAtom::First(a), BothAtom::First(b)) => a == b,
            (BothAtom::Second(a), BothAtom::Second(b)) => a == b,
            _ => false,
        }
    }
}

impl<A: Eq, B: Eq> Eq for BothAtom<A, B> {
    ghost laws = { kinds_equiv A.Eq.laws B.Eq.laws };
}

impl<A: Hash, B: Hash> Hash for BothAtom<A, B> {
    ghost hash_input = { fed_by_kind A.hash_input B.hash_input };

    ghost respects_eq = { (kinds_Alike (record { fed = A.respects_eq }) (record { fed = B.respects_eq })).fed };

    fn hash<H: Hasher>(&self, state: &mut H) {
        match self {
            BothAtom::First(a) => {
                state.write_u8(0);
                a.hash(state);
            },
            BothAtom::Second(b) => {
                state.write_u8(1);
                b.hash(state);
            },
        }
    }
}
