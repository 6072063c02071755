//! Laws of names. Each is the contract of a function that does nothing.
ghost use Rattle.std.specs.Prelude.{◌≡◌, List, ℕ};
ghost use Rattle.ded_terminals.specs.Atoms.{Named, name_of};
ghost use Rattle.ded_terminals.specs.MemberNames.{IsWordName, IsMemberName, word_of};

/// The name of a member is a word, or that of the closure or of the interior of one, where the name in it is a word;
/// and each such name is that of a member.
pub fn member_names()
    ensures made { (m : Named) → IsWordName (word_of m) → IsMemberName (name_of m) }
    ensures spelled { (n : List ℕ) → IsMemberName n → (m : Named) × IsWordName (word_of m) × (n ≡ name_of m) }
{}
