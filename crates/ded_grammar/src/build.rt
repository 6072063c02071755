//! The tree of a formula, where its nesting leaves room.
ghost use Rattle.std.specs.Prelude.{◌≡◌, ◌<◌, IfOk, IfSome, IfNone, OnErr, Err, map, [], ◌∷◌};
ghost use Rattle.ded_model.specs.declared.fault.ParseFault.TheVariants as faults;
ghost use Rattle.ded_model.specs.Form.{form};
ghost use Rattle.ded_model.specs.Logic.{negation, implies};
ghost use Rattle.ded_grammar.specs.Forms.{terminal_form, terminal_forms};
ghost use Rattle.ded_grammar.specs.Trees.{all_of, any_of, quantified};
ghost use Rattle.ded_grammar.specs.Building.{after_closing, after_conjunct, after_disjunct, after_arrow, closed};
ghost use Rattle.ded_grammar.specs.Building.{both_by, either_by, read_one, read_body, read_whole};
ghost use Rattle.ded_grammar.specs.Gives.{Gives, GivesAfter};

use crate::terminal::{Quantifier, Terminal};
use ded_model::fault::ParseFault;
use ded_model::formula::Formula;
use ded_model::name::Column;
use std::alloc::Global;

/// The first terminal and those behind it, or none where there is no terminal.
fn first(terminals: &[Terminal]) -> Option<(&Terminal, &[Terminal])>
    ensures some { IfSome result (λ x. terminal_forms terminals.now ≡ terminal_form x.0.now ∷ terminal_forms x.1.now) }
    ensures none { IfNone result (terminal_forms terminals.now ≡ []) }
{
    terminals.split_first()
}

/// The terminals behind a closing parenthesis, or none where they begin with no such terminal.
fn after_closing(terminals: &[Terminal]) -> Option<&[Terminal]>
    ensures { GivesAfter (λ rest. rest.now) result (after_closing (terminal_forms terminals.now)) }
{
    match terminals.split_first() {
        Some((Terminal::Close, rest)) => Some(rest),
        _ => None,
    }
}

/// The terminals behind an `and`, or none where they begin with no such terminal.
fn after_conjunct(terminals: &[Terminal]) -> Option<&[Terminal]>
    ensures { GivesAfter (λ rest. rest.now) result (after_conjunct (terminal_forms terminals.now)) }
{
    match terminals.split_first() {
        Some((Terminal::And, rest)) => Some(rest),
        _ => None,
    }
}

/// The terminals behind an `or`, or none where they begin with no such terminal.
fn after_disjunct(terminals: &[Terminal]) -> Option<&[Terminal]>
    ensures { GivesAfter (λ rest. rest.now) result (after_disjunct (terminal_forms terminals.now)) }
{
    match terminals.split_first() {
        Some((Terminal::Or, rest)) => Some(rest),
        _ => None,
    }
}

/// The terminals behind an `implies`, or none where they begin with no such terminal.
fn after_arrow(terminals: &[Terminal]) -> Option<&[Terminal]>
    ensures { GivesAfter (λ rest. rest.now) result (after_arrow (terminal_forms terminals.now)) }
{
    match terminals.split_first() {
        Some((Terminal::Implies, rest)) => Some(rest),
        _ => None,
    }
}

/// The formula in parentheses and its nesting, as given, and the terminals behind the closing parenthesis. `NotRead`
/// where the rest begins with no such terminal.
fn closed(
    part: Formula,
    nesting: u32,
    rest: &[Terminal],
) -> Result<(Formula, u32, &[Terminal]), ParseFault>
    ensures read { Gives (λ x. (form x.0, x.1, terminal_forms x.2.now)) result
        (closed (form part, nesting, terminal_forms rest.now)) }
    ensures same { IfOk result (λ x. x.1 ≡ nesting) }
{
    match after_closing(rest) {
        Some(rest) => Ok((part, nesting, rest)),
        None => Err(ParseFault::NotRead),
    }
}

/// The conjunction of the formulas. One formula stands for itself, and of none it is true.
fn all_of(mut parts: Vec<Formula>) -> Formula
    ensures { form result ≡ all_of (map form parts.items) }
{
    if parts.len() == 1 {
        if let Some(part) = parts.pop() {
            return part;
        }
    }
    if parts.is_empty() {
        return Formula::True;
    }
    Formula::And(parts)
}

/// The disjunction of the formulas. One formula stands for itself, and of none it is true.
fn any_of(mut parts: Vec<Formula>) -> Formula
    ensures { form result ≡ any_of (map form parts.items) }
{
    if parts.len() == 1 {
        if let Some(part) = parts.pop() {
            return part;
        }
    }
    if parts.is_empty() {
        return Formula::True;
    }
    Formula::Or(parts)
}

/// The negation of the formula. It fails only where there is no memory.
fn negated(alloc: Global, part: Formula) -> Result<Formula, ParseFault>
    ensures negated { IfOk result (λ f. form f ≡ negation (form part)) }
    ensures memory { OnErr result (result ≡ Err faults.Memory) }
{
    Ok(Formula::Not(Box::new(alloc, part)?))
}

/// The implication from the left formula to the right one. It fails only where there is no memory.
fn implied(alloc: Global, left: Formula, right: Formula) -> Result<Formula, ParseFault>
    ensures implied { IfOk result (λ f. form f ≡ implies (form left) (form right)) }
    ensures memory { OnErr result (result ≡ Err faults.Memory) }
{
    Ok(Formula::Implies(Box::new(alloc, left)?, Box::new(alloc, right)?))
}

/// The formula that the quantifier and its variable make of a body. It fails only where there is no memory.
fn quantified(
    alloc: Global,
    quantifier: Quantifier,
    column: &Column,
    body: Formula,
) -> Result<Formula, ParseFault>
    ensures quantified { IfOk result (λ f. form f ≡ quantified quantifier column.now (form body)) }
    ensures memory { OnErr result (result ≡ Err faults.Memory) }
{
    let column = column.copy()?;
    let body = Box::new(alloc, body)?;
    match quantifier {
        Quantifier::Exists => Ok(Formula::Exists(column, body)),
        Quantifier::Forall => Ok(Formula::Forall(column, body)),
    }
}

/// Reads one unit, of a nesting below the room: its formula, its nesting, and the terminals behind it.
#[cycle(read)]
fn one(
    alloc: Global,
    terminals: &[Terminal],
    room: u32,
) -> Result<(Formula, u32, &[Terminal]), ParseFault>
    ensures read { Gives (λ x. (form x.0, x.1, terminal_forms x.2.now)) result
        (read_one room (terminal_forms terminals.now)) }
    ensures low { IfOk result (λ x. x.1 < room) }
{
    if room == 0 {
        return Err(ParseFault::NotRead);
    }
    let Some((terminal, rest)) = first(terminals) else {
        return Err(ParseFault::NotRead);
    };
    match terminal {
        Terminal::Not => {
            let (part, nesting, rest) = one(alloc, rest, room - 1)?;
            Ok((negated(alloc, part)?, nesting + 1, rest))
        }
        Terminal::Open => {
            let (part, nesting, rest) = whole(alloc, rest, room - 1)?;
            let (part, nesting, rest) = closed(part, nesting, rest)?;
            Ok((part, nesting + 1, rest))
        }
        Terminal::Bind(quantifier, column) => {
            let (part, nesting, rest) = body(alloc, rest, room - 1)?;
            Ok((
                quantified(alloc, *quantifier, column, part)?,
                nesting + 1,
                rest,
            ))
        }
        Terminal::Atom(atom) => Ok((atom.copy()?, 0, rest)),
        Terminal::And | Terminal::Or | Terminal::Implies | Terminal::Close => Err(
            ParseFault::NotRead,
        ),
    }
}

/// Reads the body of a quantifier, of a nesting below the room: its formula, its nesting, and the terminals behind it.
#[cycle(read)]
fn body(
    alloc: Global,
    terminals: &[Terminal],
    room: u32,
) -> Result<(Formula, u32, &[Terminal]), ParseFault>
    ensures read { Gives (λ x. (form x.0, x.1, terminal_forms x.2.now)) result
        (read_body room (terminal_forms terminals.now)) }
    ensures low { IfOk result (λ x. x.1 < room) }
{
    if room == 0 {
        return Err(ParseFault::NotRead);
    }
    let Some((terminal, rest)) = first(terminals) else {
        return Err(ParseFault::NotRead);
    };
    match terminal {
        Terminal::Open => {
            let (part, nesting, rest) = whole(alloc, rest, room)?;
            closed(part, nesting, rest)
        }
        Terminal::Bind(quantifier, column) => {
            let (part, nesting, rest) = body(alloc, rest, room - 1)?;
            Ok((
                quantified(alloc, *quantifier, column, part)?,
                nesting + 1,
                rest,
            ))
        }
        Terminal::Not
        | Terminal::And
        | Terminal::Or
        | Terminal::Implies
        | Terminal::Close
        | Terminal::Atom(_) => { Err(ParseFault::NotRead) }
    }
}

/// Reads units with `and` between them, of nestings below the room: their conjunction, its nesting, and the terminals
/// behind it.
#[cycle(read)]
fn both(
    alloc: Global,
    terminals: &[Terminal],
    room: u32,
) -> Result<(Formula, u32, &[Terminal]), ParseFault>
    ensures read { Gives (λ x. (form x.0, x.1, terminal_forms x.2.now)) result
        (both_by (read_one room) (terminal_forms terminals.now)) }
    ensures low { IfOk result (λ x. x.1 < room) }
{
    let mut parts = Vec::new(alloc);
    let mut nesting = 0;
    let mut rest = terminals;
    // Each member has a terminal at least.
    for _ in 0..terminals.len() {
        let (part, inner, after) = one(alloc, rest, room)?;
        parts.push(part)?;
        nesting = inner.max(nesting);
        let Some(more) = after_conjunct(after) else {
            return Ok((all_of(parts), nesting, after));
        };
        rest = more;
    }
    Err(ParseFault::NotRead)
}

/// Reads conjunctions with `or` between them, of nestings below the room: their disjunction, its nesting, and the
/// terminals behind it.
#[cycle(read)]
fn either(
    alloc: Global,
    terminals: &[Terminal],
    room: u32,
) -> Result<(Formula, u32, &[Terminal]), ParseFault>
    ensures read { Gives (λ x. (form x.0, x.1, terminal_forms x.2.now)) result
        (either_by (read_one room) (terminal_forms terminals.now)) }
    ensures low { IfOk result (λ x. x.1 < room) }
{
    let mut parts = Vec::new(alloc);
    let mut nesting = 0;
    let mut rest = terminals;
    // Each member has a terminal at least.
    for _ in 0..terminals.len() {
        let (part, inner, after) = both(alloc, rest, room)?;
        parts.push(part)?;
        nesting = inner.max(nesting);
        let Some(more) = after_disjunct(after) else {
            return Ok((any_of(parts), nesting, after));
        };
        rest = more;
    }
    Err(ParseFault::NotRead)
}

/// Reads a formula, of a nesting below the room: the formula, its nesting, and the terminals behind it.
///
/// # Errors
/// `NotRead` only where the terminals begin with no formula of such a nesting, otherwise out of memory.
#[cycle(read)]
pub fn whole(
    alloc: Global,
    terminals: &[Terminal],
    room: u32,
) -> Result<(Formula, u32, &[Terminal]), ParseFault>
    ensures read { Gives (λ x. (form x.0, x.1, terminal_forms x.2.now)) result
        (read_whole room (terminal_forms terminals.now)) }
    ensures low { IfOk result (λ x. x.1 < room) }
{
    if room == 0 {
        return Err(ParseFault::NotRead);
    }
    let (left, outer, rest) = either(alloc, terminals, room)?;
    let Some(more) = after_arrow(rest) else {
        return Ok((left, outer, rest));
    };
    if outer + 1 >= room {
        return Err(ParseFault::NotRead);
    }
    let (right, inner, rest) = whole(alloc, more, room - 1)?;
    Ok((implied(alloc, left, right)?, outer.max(inner) + 1, rest))
}
