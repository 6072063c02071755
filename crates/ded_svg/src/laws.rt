//! Laws of what pictures say. Each is the contract of a function that does nothing.
ghost use Rattle.std.specs.Prelude.{◌≡◌, ℕ, ℤ, List, IsUtf8};
ghost use Rattle.ded_model.specs.Bound.{Fraction, IsFraction};
ghost use Rattle.ded_svg.specs.Coordinates.{coordinate_text, hundredths_of, hundredths_read, IsNear};
ghost use Rattle.ded_svg.specs.Escaping.{escape, IsEscaped};

/// An escaped text is UTF-8 whatever the bytes were, and is made of the five entities and of characters of XML that
/// have no byte of markup in them. So it ends no element and no attribute.
pub fn escaping()
    ensures parts { (bytes : List ℕ) → IsEscaped (escape bytes) }
    ensures utf8 { (bytes : List ℕ) → IsUtf8 (escape bytes) }
{}

/// A coordinate is within one half of a hundredth of the number that it was taken for.
pub fn place()
    ensures { (f : Fraction) → IsFraction f → IsNear f (hundredths_of f) }
{}

/// What is read of a written coordinate are its hundredths.
pub fn reading()
    ensures { (z : ℤ) → hundredths_read (coordinate_text z) ≡ z }
{}
