//! Variables that nothing binds, and texts and numbers where the other has to stand.
ghost use Rattle.std.specs.Prelude.{◌≡◌, ◌||◌};
ghost use Rattle.std.specs.List.{list_any};
ghost use Rattle.ded_model.specs.declared.slot.Sort.TheVariants.{Text};
ghost use Rattle.ded_model.specs.Known as model;
ghost use Rattle.ded_model.specs.Known.{is_unbound_operand, is_unbound_atom, is_missorted_atom};
ghost use Rattle.ded_model.specs.Point.{same_sort};
ghost use Rattle.ded_sorts.specs.Causes.{is_rational_inequality, headings_differ};
ghost use Rattle.ded_model.specs.Entries.{known};
ghost use Rattle.ded_sorts.specs.Facts.{is_faulty_atom};
ghost use Rattle.ded_sorts.specs.Scopes.{scope_form};

use crate::atoms::AtomTest;
use crate::names::{Names, known_base};
use crate::scope::SortScope;
use ded_model::formula::{CompareOp, Operand, Operands};
use ded_model::memory::NoMemory;
use ded_model::name::{Column, Name};
use ded_model::slot::Sort;

/// Passes atoms with a variable that no column of the scope has.
pub(crate) struct Unbound;

impl AtomTest for Unbound {
    ghost passes = { λ s scope a. is_unbound_atom scope a };

    fn on_comparison(
        &self,
        scope: &SortScope<'_>,
        left: &Operand,
        _: CompareOp,
        right: &Operand,
    ) -> Result<bool, NoMemory> {
        Ok(is_unbound(scope, left) || is_unbound(scope, right))
    }

    fn on_member(
        &self,
        scope: &SortScope<'_>,
        _: &Name,
        operands: &Operands,
    ) -> Result<bool, NoMemory> {
        Ok(have_unbound_operand(scope, &operands.list))
    }
}

/// Passes atoms with a text where a number has to stand, or a number where a text has to.
#[derive(Drop)]
pub(crate) struct Missorted<'a, N> {
    pub(crate) names: &'a N,
}

impl<N: Names> AtomTest for Missorted<'_, N> {
    ghost passes = { λ s scope a. is_missorted_atom (known (N.catalogue s.names.now)) scope a };

    fn on_comparison(
        &self,
        scope: &SortScope<'_>,
        left: &Operand,
        op: CompareOp,
        right: &Operand,
    ) -> Result<bool, NoMemory> {
        Ok(is_missorted(scope, left, op, right))
    }

    fn on_member(
        &self,
        scope: &SortScope<'_>,
        name: &Name,
        operands: &Operands,
    ) -> Result<bool, NoMemory> {
        match known_base(self.names, name)? {
            None => Ok(have_text_sum(scope, &operands.list)),
            Some(entry) => Ok(are_missorted(scope, entry.columns(), &operands.list)),
        }
    }
}

/// Passes atoms that one of [`Undefined`](crate::uses::Undefined), [`OtherArity`](crate::uses::OtherArity), [`Unbound`]
/// and [`Missorted`] passes. A name is looked up once.
#[derive(Drop)]
pub(crate) struct Faulty<'a, N> {
    pub(crate) names: &'a N,
}

impl<N: Names> AtomTest for Faulty<'_, N> {
    ghost passes = { λ s scope a. is_faulty_atom (known (N.catalogue s.names.now)) scope a };

    fn on_comparison(
        &self,
        scope: &SortScope<'_>,
        left: &Operand,
        op: CompareOp,
        right: &Operand,
    ) -> Result<bool, NoMemory> {
        Ok(
            is_unbound(scope, left)
                || is_unbound(scope, right)
                || is_missorted(scope, left, op, right),
        )
    }

    fn on_member(
        &self,
        scope: &SortScope<'_>,
        name: &Name,
        operands: &Operands,
    ) -> Result<bool, NoMemory> {
        match known_base(self.names, name)? {
            None => Ok(true),
            Some(entry) => {
                let columns = entry.columns();
                Ok(
                    operands.list.len() != columns.len()
                        || have_unbound_operand(scope, &operands.list)
                        || are_missorted(scope, columns, &operands.list),
                )
            }
        }
    }
}

/// Passes `!=` between numbers.
pub(crate) struct RationalInequality;

impl AtomTest for RationalInequality {
    ghost passes = { λ s scope a. is_rational_inequality scope a };

    fn on_comparison(
        &self,
        scope: &SortScope<'_>,
        left: &Operand,
        op: CompareOp,
        right: &Operand,
    ) -> Result<bool, NoMemory> {
        match op {
            CompareOp::NotEqual => {
                Ok(
                    is_same(sort_of(scope, left), Sort::Rat)
                        && is_same(sort_of(scope, right), Sort::Rat),
                )
            }
            _ => Ok(false),
        }
    }

    fn on_member(&self, _: &SortScope<'_>, _: &Name, _: &Operands) -> Result<bool, NoMemory> {
        Ok(false)
    }
}

/// Whether a variable of the operand has no column in the scope.
fn is_unbound(scope: &SortScope<'_>, operand: &Operand) -> bool
    ensures { result ≡ is_unbound_operand (scope_form scope.now) operand.now }
{
    match operand {
        Operand::Single(name) => scope.sort_of(name).is_none(),
        Operand::Sum(term) => have_unbound(scope, &term.parts.list),
        Operand::Quoted(_) => false,
    }
}

/// Whether one of the names with coefficients has no column in the scope.
fn have_unbound(scope: &SortScope<'_>, parts: &[(Name, i128)]) -> bool
    ensures { result ≡ list_any (λ c. model.is_unbound_name (scope_form scope.now) c.0) parts.now }
{
    parts.iter().any(|part| scope.sort_of(&part.0).is_none())
}

/// Whether one of the operands has a variable with no column in the scope.
fn have_unbound_operand(scope: &SortScope<'_>, operands: &[Operand]) -> bool
    ensures { result ≡ list_any (is_unbound_operand (scope_form scope.now)) operands.now }
{
    operands.iter().any(|operand| is_unbound(scope, operand))
}

/// What the variable ranges over; one that nothing binds counts as a number.
fn sort_in(scope: &SortScope<'_>, name: &Name) -> Sort
    ensures { result ≡ model.sort_in (scope_form scope.now) name.now }
{
    match scope.sort_of(name) {
        Some(sort) => sort,
        None => Sort::Rat,
    }
}

/// What the operand is: a text, or a number.
fn sort_of(scope: &SortScope<'_>, operand: &Operand) -> Sort
    ensures { result ≡ model.operand_sort (scope_form scope.now) operand.now }
{
    match operand {
        Operand::Single(name) => sort_in(scope, name),
        Operand::Sum(_) => Sort::Rat,
        Operand::Quoted(_) => Sort::Text,
    }
}

/// Whether both sorts are the same.
fn is_same(left: Sort, right: Sort) -> bool
    ensures { result ≡ same_sort left right }
{
    left == right
}

/// Whether one of the names with coefficients is a text variable.
fn have_text(scope: &SortScope<'_>, parts: &[(Name, i128)]) -> bool
    ensures { result ≡ list_any (λ c. same_sort (model.sort_in (scope_form scope.now) c.0) Text) parts.now }
{
    parts
        .iter()
        .any(|part| is_same(sort_in(scope, &part.0), Sort::Text))
}

/// Whether the operand is a sum with a text variable.
fn is_text_sum(scope: &SortScope<'_>, operand: &Operand) -> bool
    ensures { result ≡ model.is_text_sum (scope_form scope.now) operand.now }
{
    match operand {
        Operand::Sum(term) => have_text(scope, &term.parts.list),
        Operand::Single(_) | Operand::Quoted(_) => false,
    }
}

/// Whether one of the operands is a sum with a text variable.
fn have_text_sum(scope: &SortScope<'_>, operands: &[Operand]) -> bool
    ensures { result ≡ list_any (model.is_text_sum (scope_form scope.now)) operands.now }
{
    operands.iter().any(|operand| is_text_sum(scope, operand))
}

/// Whether the comparison has a text where a number has to stand, or a number where a text has to.
fn is_missorted(scope: &SortScope<'_>, left: &Operand, op: CompareOp, right: &Operand) -> bool
    ensures { result ≡ (model.is_text_sum (scope_form scope.now) left.now
        || model.is_text_sum (scope_form scope.now) right.now
        || model.sorts_differ op (model.operand_sort (scope_form scope.now) left.now)
        (model.operand_sort (scope_form scope.now) right.now)) }
{
    is_text_sum(scope, left)
        || is_text_sum(scope, right)
        || do_sorts_differ(op, sort_of(scope, left), sort_of(scope, right))
}

/// Whether the operands have a text where a number has to stand for one of the columns, or a number where a text has
/// to.
fn are_missorted(scope: &SortScope<'_>, columns: &[Column], operands: &[Operand]) -> bool
    ensures { result ≡ (list_any (model.is_text_sum (scope_form scope.now)) operands.now
        || model.arguments_differ (scope_form scope.now) columns.now operands.now) }
{
    have_text_sum(scope, operands) || do_arguments_differ(scope, columns, operands)
}

/// Whether the comparison is of a text with a number, or orders texts.
fn do_sorts_differ(op: CompareOp, left: Sort, right: Sort) -> bool
    ensures { result ≡ model.sorts_differ op left right }
{
    match op {
        CompareOp::Equal | CompareOp::NotEqual => !is_same(left, right),
        CompareOp::Less | CompareOp::LessEq | CompareOp::GreaterEq | CompareOp::Greater => {
            is_same(left, Sort::Text) || is_same(right, Sort::Text)
        }
    }
}

/// Whether one of the arguments is a text for a column of numbers, or a number for a column of texts.
fn do_arguments_differ(scope: &SortScope<'_>, columns: &[Column], operands: &[Operand]) -> bool
    ensures { result ≡ model.arguments_differ (scope_form scope.now) columns.now operands.now }
{
    for (i, column) in columns.iter().enumerate() {
        match operands.get(i) {
            None => return false,
            Some(operand) => {
                if !is_same(column.sort, sort_of(scope, operand)) {
                    return true;
                }
            }
        }
    }
    false
}

/// Whether two headings have different sorts at one place.
pub(crate) fn do_columns_differ(first: &[Column], second: &[Column]) -> bool
    ensures { result ≡ headings_differ first.now second.now }
{
    for (i, column) in first.iter().enumerate() {
        match second.get(i) {
            None => return false,
            Some(other) => {
                if !is_same(column.sort, other.sort) {
                    return true;
                }
            }
        }
    }
    false
}
