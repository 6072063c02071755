//! Whether a row holds wherever others do, as far as what shows it is found.
//!
//! It does where the others hold nowhere together with its negation. So numbers are looked for that refute these: of
//! the two neighbours of a row over two slots they are known without a search, and of all others they are searched from
//! where the last search ended.
ghost use Rattle.std.specs.Prelude.{◌≡◌, true, IfOk, List, [], ◌∷◌, ◌++◌};
ghost use Rattle.std.specs.List.{AllByRecursion};
ghost use Rattle.ded_model.specs.Cell.{conj_holds, HoldsNowhere};
ghost use Rattle.ded_model.specs.Coefs.{AreCoefs};
ghost use Rattle.ded_model.specs.Constraint.{LinearConstraint};
ghost use Rattle.ded_model.specs.Row.{row_holds};
ghost use Rattle.ded_elimination.specs.LinearAtoms.{IsLinearAtom};
ghost use Rattle.ded_weighing.specs.Columns.{lent};
ghost use Rattle.ded_linear.specs.Prunings.{Imply};

use crate::kept::KeptByDirection;
use ded_model::memory::NoMemory;
use ded_model::row::Row;
use ded_model::tuple::Negated;
use ded_row::negate;
use ded_simplex::{Hint, told_from};
use ded_theory::Verdict;
use ded_weighing::are_refuted;
use std::alloc::Global;

/// How often it may be left open whether a row is implied before no more is looked for: where numbers get too long,
/// looking takes long.
const MISSES: u32 = 3;

/// What one question after another goes on with.
#[derive(Drop)]
pub(crate) struct Search {
    misses: u32,
    hint: Hint,
}

impl Search {
    /// Nothing was asked yet. It does not allocate.
    pub fn new(alloc: Global) -> Search {
        Search {
            misses: MISSES,
            hint: Hint::new(alloc),
        }
    }
}

/// Whether the row is found to hold wherever all the others do. Of an equality it isn't looked for.
///
/// # Errors
/// Out of memory.
pub(crate) fn imply(
    alloc: Global,
    kept: &KeptByDirection,
    behind: &[Row],
    row: &Row,
    search: &mut Search,
) -> Result<bool, NoMemory>
    requires kept { AllByRecursion IsLinearAtom kept.now.rows.items }
    requires behind { AllByRecursion IsLinearAtom behind.now }
    requires normal { IsLinearAtom row.now }
    ensures { IfOk result (λ b. b ≡ true → Imply kept.now.rows.items behind.now row.now) }
{
    match negate(row)? {
        Negated::One(beyond) => are_apart(alloc, kept, behind, &beyond, search),
        Negated::Two(_, _) => Ok(false),
    }
}

/// Whether the others are found to hold nowhere together with the row: two of those kept, or else all. In the plane no
/// others than the two are asked, unless rows behind are asked too.
fn are_apart(
    alloc: Global,
    kept: &KeptByDirection,
    behind: &[Row],
    row: &Row,
    search: &mut Search,
) -> Result<bool, NoMemory>
    requires kept { AllByRecursion IsLinearAtom kept.now.rows.items }
    requires behind { AllByRecursion IsLinearAtom behind.now }
    ensures { IfOk result (λ b. b ≡ true → HoldsNowhere
        (conj_holds row_holds ((kept.now.rows.items ++ behind.now) ++ row.now ∷ []))) }
{
    if are_two_apart(alloc, kept, row)? {
        return Ok(true);
    }
    if behind.is_empty() && kept.directions.is_whole() {
        return Ok(false);
    }
    are_all_apart(alloc, &kept.rows, behind, row, search)
}

/// Whether the two of the kept rows on the sides of what is opposite to the row hold nowhere together with it.
fn are_two_apart(alloc: Global, kept: &KeptByDirection, row: &Row) -> Result<bool, NoMemory>
    ensures { IfOk result (λ b. b ≡ true → (behind : List LinearConstraint)
        → HoldsNowhere (conj_holds row_holds ((kept.now.rows.items ++ behind) ++ row.now ∷ []))) }
{
    match kept.directions.around(row, kept.rows.len()) {
        Some(two) => are_three_apart(
            alloc,
            &two.numbers,
            &kept.rows[two.first],
            &kept.rows[two.second],
            row,
        ),
        None => Ok(false),
    }
}

/// Whether the numbers show that the three rows hold nowhere together.
fn are_three_apart<'a>(
    alloc: Global,
    numbers: &[i128; 3],
    first: &'a Row,
    second: &'a Row,
    third: &'a Row,
) -> Result<bool, NoMemory>
    ensures { IfOk result (λ b. b ≡ true → HoldsNowhere
        (conj_holds row_holds (first.now ∷ second.now ∷ third.now ∷ []))) }
{
    let _ = first.coefs.list(); // for its invariant
    let _ = second.coefs.list(); // for its invariant
    let _ = third.coefs.list(); // for its invariant
    let rows = [first, second, third];
    are_refuted(alloc, numbers, &rows)
}

/// Whether the others are found to hold nowhere together with the row. The misses fall by one where it is left open,
/// and once there are none left, nothing is looked for.
fn are_all_apart(
    alloc: Global,
    kept: &[Row],
    behind: &[Row],
    row: &Row,
    search: &mut Search,
) -> Result<bool, NoMemory>
    requires kept { AllByRecursion IsLinearAtom kept.now }
    requires behind { AllByRecursion IsLinearAtom behind.now }
    ensures { IfOk result (λ b. b ≡ true → HoldsNowhere
        (conj_holds row_holds ((kept.now ++ behind.now) ++ row.now ∷ []))) }
{
    if search.misses == 0 {
        return Ok(false);
    }
    let rows = lent_with(alloc, kept, behind, row)?;
    match told_from(alloc, &rows, &mut search.hint)? {
        Verdict::Empty => Ok(true),
        Verdict::Inhabited => Ok(false),
        Verdict::Unknown => {
            search.misses = search.misses.saturating_sub(1);
            Ok(false)
        }
    }
}

/// All the rows behind references, and the one at the end.
fn lent_with<'a>(
    alloc: Global,
    kept: &'a [Row],
    behind: &'a [Row],
    row: &'a Row,
) -> Result<Vec<&'a Row>, NoMemory>
    requires kept { AllByRecursion IsLinearAtom kept.now }
    requires behind { AllByRecursion IsLinearAtom behind.now }
    ensures rows { IfOk result (λ v. lent v.items ≡ (kept.now ++ behind.now) ++ row.now ∷ []) }
    ensures coefs { IfOk result (λ v. AllByRecursion (λ r. AreCoefs r.coefs) (lent v.items)) }
{
    let _ = row.coefs.list(); // for its invariant
    let count = kept.len().saturating_add(behind.len()).saturating_add(1);
    let mut rows = Vec::with_capacity(alloc, count)?;
    lend(&mut rows, kept)?;
    lend(&mut rows, behind)?;
    rows.push(row)?;
    Ok(rows)
}

/// Adds the rows behind references.
fn lend<'a>(out: &mut Vec<&'a Row>, rows: &'a [Row]) -> Result<(), NoMemory>
    ensures { IfOk result (λ _. lent out.new.items ≡ lent out.old.items ++ rows.now) }
{
    for row in rows {
        out.push(row)?;
    }
    Ok(())
}
