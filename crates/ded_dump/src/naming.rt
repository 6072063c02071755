//! What the slots of a formula are called by.
ghost use Rattle.std.specs.Prelude.{◌≡◌, ◌++◌, IfOk, OnOk};
ghost use Rattle.ded_model.specs.Form.{form, forms};
ghost use Rattle.ded_dump.specs.Headings.{variables, variables_of, places};

use ded_model::formula::Formula;
use ded_model::memory::NoMemory;
use ded_model::name::{Column, Heading};

/// The columns of a heading and then the variables of a formula's quantifiers, in the order in which these stand.
///
/// # Errors
/// Out of memory.
pub(crate) fn places(heading: &Heading, formula: &Formula) -> Result<Heading, NoMemory>
    ensures { IfOk result (λ h. h ≡ places heading.now (form formula.now)) }
{
    let mut columns = heading.copy()?.columns;
    gather(&mut columns, formula)?;
    Ok(Heading { columns })
}

/// Puts the variables of a formula's quantifiers at the end.
#[cycle(gathered)]
fn gather(columns: &mut Vec<Column>, formula: &Formula) -> Result<(), NoMemory>
    ensures { OnOk result (columns.new.items ≡ columns.old.items ++ variables (form formula.now)) }
{
    match formula {
        Formula::True | Formula::False | Formula::Compare(_, _, _) | Formula::Member(_, _) => Ok(
            (),
        ),
        Formula::Not(part) => gather(columns, part),
        Formula::And(parts) | Formula::Or(parts) => gather_all(columns, parts),
        Formula::Implies(left, right) => {
            gather(columns, left)?;
            gather(columns, right)
        }
        Formula::Exists(column, part) | Formula::Forall(column, part) => {
            columns.push(column.copy()?)?;
            gather(columns, part)
        }
    }
}

/// Puts the variables of the formulas' quantifiers at the end.
#[cycle(gathered)]
fn gather_all(columns: &mut Vec<Column>, parts: &Vec<Formula>) -> Result<(), NoMemory>
    ensures { OnOk result (columns.new.items ≡ columns.old.items ++ variables_of (forms parts.now.items)) }
{
    for part in parts {
        gather(columns, part)?;
    }
    Ok(())
}
