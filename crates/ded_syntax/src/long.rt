//! Comparisons and commands whose normal rows have a number above 2^63 - 1 in magnitude.
ghost use Rattle.std.specs.Prelude.{◌≡◌, ◌-ℤ◌, ◌∷◌, ◌||◌, unsigned_abs};
ghost use Rattle.std.specs.List.{list_any};
ghost use Rattle.ded_grammar.specs.Forms.{terminal_form, terminal_forms};
ghost use Rattle.ded_grammar.specs.Trees.{terminal_atom};
ghost use Rattle.ded_model.specs.Command.{command_form};
ghost use Rattle.ded_model.specs.Form.{form, forms};
ghost use Rattle.ded_model.specs.Logic.{some_atom, some_atom_of};
ghost use Rattle.ded_num.specs.Gcd.{gcd_from, gcd_all};
ghost use Rattle.ded_num.specs.Length.{IsWithin, IsShort};
ghost use Rattle.ded_model.specs.LongRows.{coefficient, parts_over, constant_of, difference_over, differences_over};
ghost use Rattle.ded_model.specs.LongRows.{row_coefs_over, row_coefs, row_constant, is_nonzero, is_long_over};
ghost use Rattle.ded_model.specs.LongRows.{is_long_row, is_quoted, is_long_comparison};
ghost use Rattle.ded_syntax.specs.Drafts.{some_in_draft};
ghost use Rattle.ded_syntax.specs.Marks.{is_marked, is_unfit_atom, some_in};
ghost use Rattle.ded_syntax.specs.DraftViews.{seen_draft};

use crate::arguments::{is_marked, some_unfit_argument};
use crate::draft::Draft;
use ded_grammar::Terminal;
use ded_model::command::Command;
use ded_model::formula::{Formula, Operand, Parts, denominator};
use ded_model::limits;
use ded_model::name::Name;
use ded_num::gcd;

// ---- rows by names

/// The coefficient of the name among the parts, which is 0 where they don't have the name.
fn coefficient(parts: &Parts, name: &Name) -> i128
    ensures { result ≡ coefficient parts.now name.now }
{
    for part in &parts.list {
        if part.0.is_same(name) {
            return part.1;
        }
    }
    0
}

/// The coefficient of the name in the operand times the denominator, which is 0 where the operand doesn't have the
/// name. A sum is over the denominator already.
fn coefficient_of(over: i128, operand: &Operand, name: &Name) -> i128
    requires within { IsWithin 112 over }
    ensures value { result ≡ coefficient (parts_over over operand.now) name.now }
    ensures short { IsWithin 112 result }
{
    match operand {
        Operand::Single(other) => { if other.is_same(name) { over } else { 0 } }
        Operand::Sum(term) => coefficient(&term.parts, name),
        Operand::Quoted(_) => 0,
    }
}

/// The constant of the operand, which is 0 where it isn't a sum.
fn constant_of(operand: &Operand) -> i128
    ensures value { result ≡ constant_of operand.now }
    ensures short { IsWithin 112 result }
{
    match operand {
        Operand::Sum(term) => term.constant,
        Operand::Single(_) | Operand::Quoted(_) => 0,
    }
}

/// The first number less the second one.
fn minus(a: i128, b: i128) -> i128
    requires short_a { IsWithin 112 a }
    requires short_b { IsWithin 112 b }
    ensures value { result ≡ a -ℤ b }
    ensures short { IsShort result }
{
    a - b
}

/// The coefficient of the name in the difference of the two sides times the denominator.
fn difference(over: i128, left: &Operand, right: &Operand, name: &Name) -> i128
    requires within { IsWithin 112 over }
    ensures value { result ≡ difference_over over left.now right.now name.now }
    ensures short { IsShort result }
{
    minus(
        coefficient_of(over, left, name),
        coefficient_of(over, right, name),
    )
}

// ---- the greatest common divisor

/// The greatest common divisor, up to its sign, of a number and of the coefficients that the parts' names have in the
/// difference of the two sides.
fn divisor_of_parts(
    first: i128,
    parts: &[(Name, i128)],
    over: i128,
    left: &Operand,
    right: &Operand,
) -> i128
    requires within { IsWithin 112 over }
    requires short { IsShort first }
    ensures value { unsigned_abs result ≡ gcd_from (unsigned_abs first)
        (differences_over over left.now right.now parts.now) }
    ensures short { IsShort result }
{
    let mut by = first;
    for part in parts {
        by = gcd(by, difference(over, left, right, &part.0));
    }
    by
}

/// The greatest common divisor, up to its sign, of a number and of the coefficients that the operand's names have in
/// the difference of the two sides.
fn divisor(first: i128, operand: &Operand, over: i128, left: &Operand, right: &Operand) -> i128
    requires within { IsWithin 112 over }
    requires short { IsShort first }
    ensures value { unsigned_abs result ≡ gcd_from (unsigned_abs first)
        (differences_over over left.now right.now (parts_over over operand.now)) }
    ensures short { IsShort result }
{
    match operand {
        Operand::Single(name) => gcd(first, difference(over, left, right, name)),
        Operand::Sum(term) => divisor_of_parts(first, &term.parts.list, over, left, right),
        Operand::Quoted(_) => first,
    }
}

// ---- tests

/// Whether a name of the parts has a coefficient other than 0 in the difference of the two sides.
fn some_part(parts: &[(Name, i128)], over: i128, left: &Operand, right: &Operand) -> bool
    requires within { IsWithin 112 over }
    ensures { result ≡ list_any is_nonzero (differences_over over left.now right.now parts.now) }
{
    for part in parts {
        if difference(over, left, right, &part.0) != 0 {
            return true;
        }
    }
    false
}

/// Whether a name of the operand has a coefficient other than 0 in the difference of the two sides.
fn some_coefficient(operand: &Operand, over: i128, left: &Operand, right: &Operand) -> bool
    requires within { IsWithin 112 over }
    ensures { result ≡ list_any is_nonzero (differences_over over left.now right.now (parts_over over operand.now)) }
{
    match operand {
        Operand::Single(name) => difference(over, left, right, name) != 0,
        Operand::Sum(term) => some_part(&term.parts.list, over, left, right),
        Operand::Quoted(_) => false,
    }
}

/// Whether the number is above 2^63 - 1 in magnitude when it is divided by a divisor that isn't 0.
pub fn is_long_over(by: u128, number: i128) -> bool
    ensures { result ≡ is_long_over by number }
{
    by != 0 && number.unsigned_abs() / by >= u128::from(limits::TOO_GREAT)
}

/// Whether a name of the parts has a coefficient, in the difference of the two sides, that is above 2^63 - 1 in
/// magnitude when it is divided by the divisor.
fn long_part(by: u128, parts: &[(Name, i128)], over: i128, left: &Operand, right: &Operand) -> bool
    requires within { IsWithin 112 over }
    ensures { result ≡ list_any (is_long_over by) (differences_over over left.now right.now parts.now) }
{
    for part in parts {
        if is_long_over(by, difference(over, left, right, &part.0)) {
            return true;
        }
    }
    false
}

/// Whether a name of the operand has a coefficient, in the difference of the two sides, that is above 2^63 - 1 in
/// magnitude when it is divided by the divisor.
fn long_coefficient(
    by: u128,
    operand: &Operand,
    over: i128,
    left: &Operand,
    right: &Operand,
) -> bool
    requires within { IsWithin 112 over }
    ensures { result ≡ list_any (is_long_over by)
        (differences_over over left.now right.now (parts_over over operand.now)) }
{
    match operand {
        Operand::Single(name) => is_long_over(by, difference(over, left, right, name)),
        Operand::Sum(term) => long_part(by, &term.parts.list, over, left, right),
        Operand::Quoted(_) => false,
    }
}

// ---- rows

/// Whether some name has a coefficient other than 0 in the difference of the two sides.
#[tactic(auto, using(ded_terminals::proofs::Tests::any_split))]
fn has_coefficient(over: i128, left: &Operand, right: &Operand) -> bool
    requires within { IsWithin 112 over }
    ensures { result ≡ list_any is_nonzero (row_coefs_over over left.now right.now) }
{
    some_coefficient(left, over, left, right) || some_coefficient(right, over, left, right)
}

/// The greatest common divisor of the constant and of all coefficients in the difference of the two sides.
#[tactic(auto, using(crate::proofs::LongLists::gcd_split))]
fn row_divisor(constant: i128, over: i128, left: &Operand, right: &Operand) -> u128
    requires within { IsWithin 112 over }
    requires short { IsShort constant }
    ensures { result ≡ gcd_all (constant ∷ row_coefs_over over left.now right.now) }
{
    let by = divisor(gcd(0, constant), left, over, left, right);
    divisor(by, right, over, left, right).unsigned_abs()
}

/// Whether some coefficient in the difference of the two sides is above 2^63 - 1 in magnitude when it is divided by the
/// divisor.
#[tactic(auto, using(ded_terminals::proofs::Tests::any_split))]
fn has_long_coefficient(by: u128, over: i128, left: &Operand, right: &Operand) -> bool
    requires within { IsWithin 112 over }
    ensures { result ≡ list_any (is_long_over by) (row_coefs_over over left.now right.now) }
{
    long_coefficient(by, left, over, left, right) || long_coefficient(by, right, over, left, right)
}

/// Whether the normal row of the difference of the two sides has a number above 2^63 - 1 in magnitude. A row without
/// coefficients has none.
fn is_long_row(left: &Operand, right: &Operand) -> bool
    ensures { result ≡ is_long_row (row_coefs left.now right.now) (row_constant left.now right.now) }
{
    let over = denominator(left, right);
    if !has_coefficient(over, left, right) {
        return false;
    }
    let constant = minus(constant_of(left), constant_of(right));
    let by = row_divisor(constant, over, left, right);
    is_long_over(by, constant) || has_long_coefficient(by, over, left, right)
}

/// Whether the operand is a quoted text.
fn is_quoted(operand: &Operand) -> bool
    ensures { result ≡ is_quoted operand.now }
{
    match operand {
        Operand::Quoted(_) => true,
        Operand::Single(_) | Operand::Sum(_) => false,
    }
}

/// Whether neither side of a comparison is a quoted text, and its normal row has a number above 2^63 - 1 in magnitude.
fn is_long_comparison(left: &Operand, right: &Operand) -> bool
    ensures { result ≡ is_long_comparison left.now right.now }
{
    !is_quoted(left) && !is_quoted(right) && is_long_row(left, right)
}

/// Whether a side of a comparison is a sum over 2^63, or its normal row has a number above 2^63 - 1 in magnitude.
fn is_unfit_comparison(left: &Operand, right: &Operand) -> bool
    ensures { result ≡ (is_marked left.now || is_marked right.now) || is_long_comparison left.now right.now }
{
    is_marked(left) || is_marked(right) || is_long_comparison(left, right)
}

// ---- formulas

/// Whether a comparison or an argument of the formula has literals or a row that are too long.
#[cycle(long)]
fn has_long_atom(formula: &Formula) -> bool
    ensures { result ≡ some_atom is_unfit_atom (form formula.now) }
{
    match formula {
        Formula::True | Formula::False => false,
        Formula::Compare(left, _, right) => is_unfit_comparison(left, right),
        Formula::Member(_, operands) => some_unfit_argument(&operands.list),
        Formula::Not(part) | Formula::Exists(_, part) | Formula::Forall(_, part) => {
            has_long_atom(part)
        }
        Formula::And(parts) | Formula::Or(parts) => some_long_atom(parts),
        Formula::Implies(left, right) => has_long_atom(left) || has_long_atom(right),
    }
}

/// Whether a comparison or an argument of one of the formulas has literals or a row that are too long.
#[cycle(long)]
fn some_long_atom(formulas: &Vec<Formula>) -> bool
    ensures { result ≡ some_atom_of is_unfit_atom (forms formulas.now.items) }
{
    for formula in formulas {
        if has_long_atom(formula) {
            return true;
        }
    }
    false
}

/// Whether the terminal is a formula of which a comparison or an argument has literals or a row that are too long.
fn is_long_terminal(terminal: &Terminal) -> bool
    ensures { result ≡ terminal_atom is_unfit_atom (terminal_form terminal.now) }
{
    match terminal {
        Terminal::Atom(formula) => has_long_atom(formula),
        _ => false,
    }
}

/// Whether a comparison or an argument of one of the terminals has literals or a row that are too long.
fn some_long_terminal(terminals: &[Terminal]) -> bool
    ensures { result ≡ list_any (terminal_atom is_unfit_atom) (terminal_forms terminals.now) }
{
    for terminal in terminals {
        if is_long_terminal(terminal) {
            return true;
        }
    }
    false
}

/// Whether a comparison or an argument of the command has literals or a row that are too long.
fn is_long_command(command: &Command) -> bool
    ensures { result ≡ some_in is_unfit_atom (command_form command.now) }
{
    match command {
        Command::Insert(_, formulas) => some_long_atom(formulas),
        Command::View(_, _, formula)
        | Command::Ask(formula)
        | Command::Query(_, formula)
        | Command::Explain(_, formula) => has_long_atom(formula),
        Command::Header
        | Command::Relation(_, _)
        | Command::Delete(_, _)
        | Command::Drop(_)
        | Command::Keep(_)
        | Command::Show(_)
        | Command::BoxOf(_)
        | Command::Dump
        | Command::Disjoint(_, _)
        | Command::Verify(_, _, _) => false,
    }
}

/// Whether a comparison or an argument of the draft has literals that are too long over their common denominator, which
/// the reader marks by a sum over 2^63, or a row with a number above 2^63 - 1 in magnitude.
pub fn is_unfit(draft: &Draft) -> bool
    ensures { result ≡ some_in_draft is_unfit_atom (seen_draft draft.now) }
{
    match draft {
        Draft::Plain(command) => is_long_command(command),
        Draft::Formed(_, terminals) => some_long_terminal(terminals),
    }
}
