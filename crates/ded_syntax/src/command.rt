//! Commands of bytes.
ghost use Rattle.std.specs.Prelude.{◌≡◌, ◌≢◌, ◌≤◌, ℕ, List, Some, true, length, map, IfOk, IfErr, IfSome, IfNone};
ghost use Rattle.ded_lex.specs.Tokens.{AreLexemes, lexeme};
ghost use Rattle.ded_model.specs.declared.fault.ParseFault.TheVariants.{NotRead};
ghost use Rattle.ded_model.specs.declared.command.Language.{Language as LanguageForm};
ghost use Rattle.ded_model.specs.declared.command.Refusal.TheVariants as refusal;
ghost use Rattle.ded_model.specs.Command.{command_form};
ghost use Rattle.ded_model.specs.Form.{form};
ghost use Rattle.ded_syntax.specs.CommandReading.{draft_at, scans, head_form};
ghost use Rattle.ded_syntax.specs.Drafts.{HasDraft, IsShort};
ghost use Rattle.ded_syntax.specs.DraftViews.{seen_head, seen_draft};
ghost use Rattle.ded_terminals.specs.Items.{left, AreSymbols};
ghost use Rattle.ded_terminals.specs.Literals.{capped_reader};
ghost use Rattle.ded_syntax.specs.Meaning.{Means, MeansDeep};
ghost use Rattle.ded_syntax.specs.Spelling.{IsRead, IsLeastIn};

use crate::draft::{Draft, Head};
use crate::long::is_unfit;
use crate::statement::draft;
use ded_grammar::{formula_of, is_formula};
use ded_lex::{Token, tokens};
use ded_model::command::{Command, Language, Refusal};
use ded_model::fault::ParseFault;
use ded_model::formula::Formula;
use ded_terminals::item::{Rest, has_long_literal, has_long_name, items_of};
use std::alloc::Global;

/// Whether the terminals of the draft spell a formula, where it has terminals.
fn is_spelled(draft: &Draft) -> bool
    ensures { result ≡ scans (seen_draft draft.now) }
{
    match draft {
        Draft::Plain(_) => true,
        Draft::Formed(_, terminals) => is_formula(terminals),
    }
}

/// The draft that the items spell, with terminals that spell a formula where it has terminals.
fn spelled_draft(alloc: Global, items: Rest<'_>) -> Result<Draft, ParseFault>
    requires few { length (left items) ≤ 65536 }
    ensures read { IfOk result (λ d. draft_at capped_reader (left items.entry) ≡ Some (seen_draft d)) }
    ensures scanned { IfOk result (λ d. scans (seen_draft d) ≡ true) }
    ensures unread { IfErr result (λ e. e ≡ NotRead → HasDraft capped_reader (left items.entry) → ⊥) }
{
    let draft = draft(alloc, items)?;
    if is_spelled(&draft) {
        Ok(draft)
    } else {
        drop(draft);
        Err(ParseFault::NotRead)
    }
}

/// The command of a head and its formula.
fn headed(head: Head, formula: Formula) -> Command
    ensures { command_form result ≡ head_form (seen_head head) (form formula) }
{
    match head {
        Head::View(name, heading) => Command::View(name, heading, formula),
        Head::Ask => Command::Ask(formula),
        Head::Query(heading) => Command::Query(heading, formula),
        Head::Explain(heading) => Command::Explain(heading, formula),
    }
}

/// The command for which a draft stands, whose formula nests at most 64 deep. `Deep` where it nests deeper.
fn command_of(alloc: Global, draft: Draft) -> Result<Command, Refusal>
    requires { scans (seen_draft draft) ≡ true }
    ensures made { IfOk result (λ c. (depth : ℕ) × Means (seen_draft draft) (command_form c) depth × (depth ≤ 64)) }
    ensures refused { IfErr result (λ r. r ≢ refusal.Memory → (r ≡ refusal.Deep) × MeansDeep (seen_draft draft)) }
{
    match draft {
        Draft::Plain(command) => Ok(command),
        Draft::Formed(head, terminals) => {
            match formula_of(alloc, &terminals) {
                Ok(formula) => Ok(headed(head, formula)),
                Err(refusal) => Err(refusal),
            }
        }
    }
}

/// The refusal of the items, which spell the draft, for the first kind of thing that is too long in them: a name, a
/// number, or a normal row. None where nothing is.
fn long_refusal(items: Rest<'_>, draft: &Draft) -> Option<Refusal>
    requires read { draft_at capped_reader (left items) ≡ Some (seen_draft draft.now) }
    requires scanned { scans (seen_draft draft.now) ≡ true }
    ensures some { IfSome result (λ r. (language : LanguageForm) (bytes : List ℕ)
        → AreSymbols language bytes (left items.entry) → IsLeastIn r language bytes) }
    ensures none { IfNone result (IsShort (left items.entry) (seen_draft draft.now)) }
{
    if has_long_name(items.bytes, items.items) {
        Some(Refusal::LongName)
    } else if has_long_literal(items.bytes, items.items) {
        Some(Refusal::LongNumber)
    } else if is_unfit(draft) {
        Some(Refusal::LongNumber)
    } else {
        None
    }
}

/// The command that the items spell, or the least refusal that applies to them.
fn command_by(alloc: Global, items: Rest<'_>) -> Result<Command, Refusal>
    requires few { length (left items) ≤ 65536 }
    ensures read { IfOk result (λ c. (language : LanguageForm) (bytes : List ℕ)
        → AreSymbols language bytes (left items.entry) → IsRead language bytes (command_form c)) }
    ensures refused { IfErr result (λ r. r ≢ refusal.Memory → (language : LanguageForm) (bytes : List ℕ)
        → AreSymbols language bytes (left items.entry) → IsLeastIn r language bytes) }
{
    let draft = match spelled_draft(alloc, items) {
        Ok(draft) => draft,
        Err(ParseFault::NotRead) => return Err(Refusal::Syntax),
        Err(ParseFault::Memory) => return Err(Refusal::Memory),
    };
    match long_refusal(items, &draft) {
        Some(refusal) => {
            drop(draft);
            Err(refusal)
        }
        None => command_of(alloc, draft),
    }
}

/// The command that the bytes spell in the language.
///
/// # Errors
/// The least refusal that applies to the bytes: `Syntax` where they spell no command, whatever its nesting; `LongName`
/// where a name has more than 64 bytes; `LongNumber` where a number, or a number of the normal row of a comparison or
/// an argument, is above 2^63 - 1 in magnitude, and in language 2 besides where a decimal's digits without the point,
/// its power of ten, or the common denominator of a comparison's or an argument's literals is above 2^63 - 1, or the
/// numerator of such a literal over their common denominator is above 2^96; `Deep` where the nesting is above 64.
/// `Memory` where there is no memory.
pub fn read_command(alloc: Global, bytes: &[u8], language: Language) -> Result<Command, Refusal>
    requires { length bytes.now ≤ 65536 }
    ensures read { IfOk result (λ c. IsRead language bytes.now (command_form c)) }
    ensures refused { IfErr result (λ r. r ≢ refusal.Memory → IsLeastIn r language bytes.now) }
{
    match tokens(alloc, bytes) {
        Ok(tokens) => read_tokens(alloc, bytes, tokens.list(), language),
        Err(ParseFault::NotRead) => Err(Refusal::Syntax),
        Err(ParseFault::Memory) => Err(Refusal::Memory),
    }
}

/// The command that the tokens spell in the language. They may be all tokens of the bytes, or those of a part.
///
/// # Errors
/// Those of [`read_command`] for a piece that says what the tokens say.
pub fn read_tokens(
    alloc: Global,
    bytes: &[u8],
    tokens: &[Token],
    language: Language,
) -> Result<Command, Refusal>
    requires { length tokens.now ≤ 65536 }
    ensures read { IfOk result (λ c. (piece : List ℕ) → AreLexemes piece (map (lexeme bytes.now) tokens.now)
        → IsRead language piece (command_form c)) }
    ensures refused { IfErr result (λ r. r ≢ refusal.Memory → (piece : List ℕ)
        → AreLexemes piece (map (lexeme bytes.now) tokens.now) → IsLeastIn r language piece) }
{
    let Ok(items) = items_of(alloc, bytes, tokens, language) else {
        return Err(Refusal::Memory);
    };
    command_by(
        alloc,
        Rest {
            bytes,
            items: &items,
        },
    )
}
