//! The formula of terminals.
ghost use Rattle.std.specs.Prelude.{◌≡◌, ◌≢◌, ◌≤◌, ℕ, IfOk, IfErr};
ghost use Rattle.ded_model.specs.declared.command.Refusal.TheVariants as refusal;
ghost use Rattle.ded_model.specs.Form.{form};
ghost use Rattle.ded_grammar.specs.Forms.{terminal_forms};
ghost use Rattle.ded_grammar.specs.Trees.{Whole, spell};
ghost use Rattle.ded_grammar.specs.Spelling.{Spells, SpellsDeep};

use crate::build::whole;
use crate::terminal::Terminal;
use ded_model::command::Refusal;
use ded_model::fault::ParseFault;
use ded_model::formula::Formula;
use std::alloc::Global;

/// The formula that terminals spell, of those that spell one.
///
/// # Errors
/// `Deep` where its nesting is above 64; `Memory` where there is no memory.
pub fn formula_of(alloc: Global, terminals: &[Terminal]) -> Result<Formula, Refusal>
    requires { (tree : Whole) × (spell tree ≡ terminal_forms terminals.now) }
    ensures built { IfOk result (λ f. (depth : ℕ)
        × Spells (terminal_forms terminals.now) (form f) depth × (depth ≤ 64)) }
    ensures refused { IfErr result (λ r. r ≢ refusal.Memory
        → (r ≡ refusal.Deep) × SpellsDeep (terminal_forms terminals.now)) }
{
    match whole(alloc, terminals, 65) {
        Ok((formula, _, _)) => Ok(formula),
        Err(ParseFault::NotRead) => Err(Refusal::Deep),
        Err(ParseFault::Memory) => Err(Refusal::Memory),
    }
}
