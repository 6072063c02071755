//! Laws of the grammar. Each is the contract of a function that does nothing.
ghost use Rattle.std.specs.Prelude.{◌≡◌, ◌⊎◌, ◌↔◌, List, ℕ};
ghost use Rattle.ded_model.specs.declared.command.Language.{Language};
ghost use Rattle.ded_model.specs.declared.command.Language.TheVariants.{Opening, One, Two};
ghost use Rattle.ded_model.specs.declared.command.Refusal.{Refusal};
ghost use Rattle.ded_model.specs.declared.command.Refusal.TheVariants.{Syntax};
ghost use Rattle.ded_model.specs.Command.{CommandForm, header};
ghost use Rattle.ded_model.specs.Plain.{IsPlainCommand};
ghost use Rattle.ded_syntax.specs.Spelling.{Spells, IsHeader, AppliesIn, IsRead};

/// Bytes spell one command at most, with one nesting.
pub fn one_command()
    ensures { (language : Language) (bytes : List ℕ) (these those : CommandForm) (m n : ℕ) →
        Spells language bytes these m → Spells language bytes those n → (these ≡ those) × (m ≡ n) }
{}

/// Bytes spell a command, or `Syntax` applies to them; and where no refusal applies, they are read as a command.
pub fn some_command()
    ensures decided { (language : Language) (bytes : List ℕ) →
        ((command : CommandForm) × (depth : ℕ) × Spells language bytes command depth)
        ⊎ AppliesIn Syntax language bytes }
    ensures spelled { (language : Language) (bytes : List ℕ) → (AppliesIn Syntax language bytes → ⊥) →
        (command : CommandForm) × (depth : ℕ) × Spells language bytes command depth }
    ensures read { (language : Language) (bytes : List ℕ) →
        ((refusal : Refusal) → AppliesIn refusal language bytes → ⊥) →
        (command : CommandForm) × IsRead language bytes command }
{}

/// What the plain language spells, the opening one spells as the same command, and it isn't the header; what applies to
/// it in the opening language applies in the plain one. No refusal applies to the header, and whether bytes spell it is
/// decided.
pub fn opening_language()
    ensures spelled { (bytes : List ℕ) (command : CommandForm) (depth : ℕ) →
        Spells One bytes command depth → Spells Opening bytes command depth }
    ensures other { (bytes : List ℕ) (command : CommandForm) (depth : ℕ) →
        Spells One bytes command depth → IsHeader bytes → ⊥ }
    ensures refused { (bytes : List ℕ) (command : CommandForm) (depth : ℕ) → Spells One bytes command depth →
        (refusal : Refusal) → AppliesIn refusal Opening bytes → AppliesIn refusal One bytes }
    ensures read { (bytes : List ℕ) → IsHeader bytes → IsRead Opening bytes header }
    ensures decided { (bytes : List ℕ) → IsHeader bytes ⊎ (IsHeader bytes → ⊥) }
{}

/// What the plain language spells, the second one spells as the same command with the same nesting, and the same
/// refusals apply to it in both. So the second language adds to the plain one, and takes nothing from it.
pub fn second_language()
    ensures spelled { (bytes : List ℕ) (command : CommandForm) (depth : ℕ) →
        Spells One bytes command depth → Spells Two bytes command depth }
    ensures refused { (bytes : List ℕ) (command : CommandForm) (depth : ℕ) → Spells One bytes command depth →
        (refusal : Refusal) → AppliesIn refusal Two bytes ↔ AppliesIn refusal One bytes }
{}

/// In a command that is spelled each sum has each name once, and the sums of a comparison are over one denominator.
pub fn spelled_sums()
    ensures { (language : Language) (bytes : List ℕ) (command : CommandForm) (depth : ℕ) →
        Spells language bytes command depth → IsPlainCommand command }
{}
