//! Laws of certificates. Each is the contract of a function that does nothing.
ghost use Rattle.std.specs.Prelude.{◌≤◌, ℕ, List, ◌++◌};
ghost use Rattle.std.specs.List.{AllByRecursion};
ghost use Rattle.ded_model.specs.declared.certificate.Entry.{Entry};
ghost use Rattle.ded_model.specs.declared.certificate.Proof.{Proof};
ghost use Rattle.ded_model.specs.declared.name.Column.{Column};
ghost use Rattle.ded_model.specs.Known.{AreStored};
ghost use Rattle.ded_model.specs.Normal.{IsNormalTuple};
ghost use Rattle.ded_model.specs.Row.{Atom, tuple_holds};
ghost use Rattle.ded_model.specs.Width.{tuple_length};
ghost use Rattle.ded_model.specs.Cell.{HoldsSomewhere, HoldsNowhere};
ghost use Rattle.ded_cert.specs.Certified.{HasSmallSum};
ghost use Rattle.ded_cert.specs.Checks.{Checks, IsTooLong};
ghost use Rattle.ded_cert.specs.Pairs.{Numbered, both_hold, pairs_of, AreEntriesOf, IsFirstMeeting, IsLongCheck};
ghost use Rattle.ded_cert.specs.Pairs.{IsVerified, SomePair};

/// Two tuples of which a proof checks have no common point.
pub fn certificates()
    ensures { (t u : List Atom) (proof : Proof) → Checks t u proof → HoldsNowhere (tuple_holds (t ++ u)) }
{}

/// No number of a check is too long where the magnitudes of the proof's numbers sum to at most 2^63 - 1 and the tuples
/// have numbers of at most 63 binary digits.
pub fn short_certificates()
    ensures { (t u : List Atom) (proof : Proof) → IsNormalTuple t → IsNormalTuple u → tuple_length t ≤ 63
        → tuple_length u ≤ 63 → HasSmallSum proof → IsTooLong t u proof → ⊥ }
{}

/// Of stored tuples, whose numbers ascend, certificates for all pairs verify all pairs, and in no check a number is too
/// long.
pub fn verified_certificates()
    ensures verified { (h k : List Column) (i j : ℕ) (ts us : List Numbered) (es : List Entry) → AreStored h i 0 ts
        → AreStored k j 0 us → AreEntriesOf (pairs_of ts us) es
        → AllByRecursion (IsVerified es) (pairs_of ts us) }
    ensures short { (h k : List Column) (i j : ℕ) (ts us : List Numbered) (es : List Entry) → AreStored h i 0 ts
        → AreStored k j 0 us → AreEntriesOf (pairs_of ts us) es
        → SomePair (IsLongCheck es) (pairs_of ts us) → ⊥ }
{}

/// Relations have no common point where there are certificates for all pairs of their tuples, or where all pairs are
/// verified; and they have one where some pair meets.
pub fn relations()
    ensures certified { (ts us : List Numbered) (es : List Entry) → AreEntriesOf (pairs_of ts us) es
        → HoldsNowhere (both_hold ts us) }
    ensures verified { (ts us : List Numbered) (es : List Entry) → AllByRecursion (IsVerified es) (pairs_of ts us)
        → HoldsNowhere (both_hold ts us) }
    ensures meet { (ts us : List Numbered) (i j : ℕ) → IsFirstMeeting (pairs_of ts us) i j
        → HoldsSomewhere (both_hold ts us) }
{}
