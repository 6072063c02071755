//! The exact bounds of the rational columns of a relation.
ghost use Rattle.std.specs.Prelude.{◌≡◌, ◌||◌, Bool, [], ◌∷◌, IfOk, IsErrOf};
ghost use Rattle.std.specs.List.{AllByRecursion};
ghost use Rattle.ded_model.specs.declared.memory.Refused.TheVariants.{Wide};
ghost use Rattle.ded_model.specs.declared.slot.Sort.TheVariants.{Rat};
ghost use Rattle.ded_model.specs.Bound as bound;
ghost use Rattle.ded_model.specs.Cell.{conj_holds, HoldsSomewhere};
ghost use Rattle.ded_model.specs.Interval.{IsExactBound};
ghost use Rattle.ded_model.specs.Known.{IsTupleOver};
ghost use Rattle.ded_model.specs.Point.{Point};
ghost use Rattle.ded_model.specs.Row.{tuple_holds};
ghost use Rattle.ded_model.specs.Width.{IsBoxNarrow};
ghost use Rattle.ded_theory.specs.Conjunctions.{IsWide};
ghost use Rattle.ded_box.specs.Intervals.{IsInterval};
ghost use Rattle.ded_box.specs.Extents.{AreBounds, IsBox, covering};
ghost use Rattle.ded_atoms.specs.Orders.{AreOrderAtoms};

use crate::numbers::following;
use crate::ordering::order_atoms;
use crate::theories::{Atoms, OrderAtoms};
use ded_box::{checked, hulls};
use ded_model::bound::{Bound, BoxReply, Spans};
use ded_model::memory::{NoMemory, Refused};
use ded_model::name::{Column, Heading};
use ded_model::slot::{Slot, Sort};
use ded_model::tuple::Tuple;
use ded_theory::{Span, Theory, Verdict};
use std::alloc::Global;

/// The bounds over some points and all points of the tuple, from those over the points.
///
/// # Errors
/// `Wide` only where the tuple alone isn't narrow with all rational columns of the heading and some row of it is no
/// order row, otherwise out of memory.
pub fn extended(
    alloc: Global,
    heading: &Heading,
    extent: BoxReply,
    tuple: &Tuple,
) -> Result<BoxReply, Refused>
    requires { IsTupleOver heading.now tuple.now }
    ensures is { IfOk result (λ r. (test : Point → Bool) → IsBox test heading.now extent
        → IsBox (λ p. test p || tuple_holds tuple.now p) heading.now r) }
    ensures wide { IsErrOf result Wide → IsBoxNarrow heading.now (tuple.now ∷ []) → ⊥ }
    ensures orders { AreOrderAtoms tuple.now → IsErrOf result Wide → ⊥ }
{
    let more = tuple_extent(alloc, heading, tuple)?;
    Ok(covering(alloc, extent, more)?)
}

/// The bounds over all points of the tuple.
///
/// # Errors
/// As [`extended`].
fn tuple_extent(alloc: Global, heading: &Heading, tuple: &Tuple) -> Result<BoxReply, Refused>
    requires { IsTupleOver heading.now tuple.now }
    ensures is { IfOk result (λ r. IsBox (tuple_holds tuple.now) heading.now r) }
    ensures wide { IsErrOf result Wide → IsBoxNarrow heading.now (tuple.now ∷ []) → ⊥ }
    ensures orders { AreOrderAtoms tuple.now → IsErrOf result Wide → ⊥ }
{
    if let Some(atoms) = order_atoms(alloc, &tuple.atoms)? {
        return conj_extent::<OrderAtoms>(alloc, &heading.columns, &atoms);
    }
    conj_extent::<Atoms>(alloc, &heading.columns, &tuple.atoms)
}

/// The least box that contains both boxes.
fn covering(alloc: Global, extent: BoxReply, more: BoxReply) -> Result<BoxReply, NoMemory>
    ensures { IfOk result (λ r. r ≡ covering extent more) }
{
    match extent {
        BoxReply::Nowhere => Ok(more),
        BoxReply::NoRational => Ok(BoxReply::NoRational),
        BoxReply::Spans(spans) => match more {
            BoxReply::Spans(others) => Ok(BoxReply::Spans(Spans {
                list: hulls(alloc, &spans.list, &others.list)?,
            })),
            _ => Ok(BoxReply::Spans(spans)),
        },
    }
}

/// The exact bounds of each rational column over the points that satisfy all the atoms.
///
/// # Errors
/// `Wide` only where the atoms are wide, and never over a theory that decides; otherwise out of memory.
fn conj_extent<T: Theory>(
    alloc: Global,
    columns: &[Column],
    atoms: &[T::Atom],
) -> Result<BoxReply, Refused>
    requires { AllByRecursion T.normal atoms.now }
    ensures is { IfOk result (λ r. IsBox (conj_holds T.holds atoms.now) columns.now r) }
    ensures wide { IsErrOf result Wide → IsWide T.mentions T.lines atoms.now }
    ensures never_wide { T.decides → IsErrOf result Wide → ⊥ }
{
    match T::refute(alloc, atoms)? {
        Verdict::Empty => Ok(BoxReply::Nowhere),
        Verdict::Unknown => Err(Refused::Wide),
        Verdict::Inhabited => {
            let list = spans::<T>(alloc, columns, atoms)?;
            if list.is_empty() {
                Ok(BoxReply::NoRational)
            } else {
                Ok(BoxReply::Spans(Spans { list }))
            }
        }
    }
}

/// The bounds of each rational column, over atoms that some point satisfies.
fn spans<T: Theory>(
    alloc: Global,
    columns: &[Column],
    atoms: &[T::Atom],
) -> Result<Vec<(Bound, Bound)>, Refused>
    requires normal { AllByRecursion T.normal atoms.now }
    requires inhabited { HoldsSomewhere (conj_holds T.holds atoms.now) }
    ensures is { IfOk result (λ v. AreBounds (conj_holds T.holds atoms.now) 0 columns.now v.items) }
    ensures wide { IsErrOf result Wide → IsWide T.mentions T.lines atoms.now }
    ensures never_wide { T.decides → IsErrOf result Wide → ⊥ }
{
    let mut spans = Vec::new(alloc);
    let mut number = 0;
    for column in columns {
        if column.sort == Sort::Rat {
            spans.push(span::<T>(alloc, atoms, number)?)?;
        }
        number = following(number)?;
    }
    Ok(spans)
}

/// The exact bounds of the rational column of a number, over atoms that some point satisfies.
fn span<T: Theory>(alloc: Global, atoms: &[T::Atom], number: u32) -> Result<(Bound, Bound), Refused>
    requires normal { AllByRecursion T.normal atoms.now }
    requires inhabited { HoldsSomewhere (conj_holds T.holds atoms.now) }
    ensures is { IfOk result (λ b. IsInterval b
        × IsExactBound (conj_holds T.holds atoms.now) (record { number = number; sort = Rat }) bound.lower b.0
        × IsExactBound (conj_holds T.holds atoms.now) (record { number = number; sort = Rat }) bound.upper b.1) }
    ensures wide { IsErrOf result Wide → IsWide T.mentions T.lines atoms.now }
    ensures never_wide { T.decides → IsErrOf result Wide → ⊥ }
{
    let slot = Slot {
        number,
        sort: Sort::Rat,
    };
    match T::bounds(alloc, atoms, slot)? {
        Span::Exact(lower, upper) => Ok(checked(&(lower, upper))),
        Span::Around(_, _) => Err(Refused::Wide),
        Span::Nothing => unreachable!(),
    }
}
