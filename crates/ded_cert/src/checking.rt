//! Whether a certificate shows what it should.
ghost use Rattle.std.specs.Prelude.{◌≡◌, ◌↔◌, ◌++◌, false, IsTrue, IfOk, OnOk, IsErrOf};
ghost use Rattle.std.specs.List.{AllByRecursion};
ghost use Rattle.ded_model.specs.declared.memory.Refused.TheVariants.{Wide};
ghost use Rattle.ded_model.specs.Row.{theme_holds};
ghost use Rattle.ded_model.specs.Cell.{conj_holds, HoldsSomewhere, HoldsNowhere};
ghost use Rattle.ded_model.specs.Coefs.{AreCoefs};
ghost use Rattle.ded_model.specs.Normal.{IsNormalTheme, IsNormalTuple};
ghost use Rattle.ded_theory.specs.Both.{firsts, seconds};
ghost use Rattle.ded_elimination.specs.LinearAtoms.{IsLinearAtom};
ghost use Rattle.ded_weighing.specs.Columns.{lent};
ghost use Rattle.ded_cert.specs.Checks.{Checks, IsTooLong};

use ded_model::certificate::Proof;
use ded_model::memory::{NoMemory, Refused};
use ded_model::row::Row;
use ded_model::tuple::{Atom, BothAtom, ThemeAtom, Tuple};
use ded_theme::Theme;
use ded_theory::{Theory, Verdict};
use ded_weighing::refutes;
use std::alloc::Global;

/// Whether the proof shows that the tuples have no common point.
///
/// # Errors
/// `Wide` only where the proof has as many numbers as the tuples have rows, of the right signs, and a product, or a sum
/// on the way, has more than 127 binary digits; otherwise out of memory.
pub fn check(alloc: Global, first: &Tuple, second: &Tuple, proof: &Proof) -> Result<bool, Refused>
    ensures is { IfOk result (λ b. IsTrue b ↔ Checks first.now second.now proof.now) }
    ensures wide { IsErrOf result Wide → IsTooLong first.now second.now proof.now }
{
    match proof {
        Proof::Text => Ok(texts_refute(alloc, first, second)?),
        Proof::Multipliers(multipliers) => {
            refutes(alloc, &multipliers.list, &rows_of(alloc, first, second)?)
        }
    }
}

/// Whether no texts fit both tuples.
pub(crate) fn texts_refute(alloc: Global, first: &Tuple, second: &Tuple) -> Result<bool, NoMemory>
    ensures is { IfOk result (λ b. IsTrue b ↔ HoldsNowhere
        (conj_holds theme_holds (seconds (first.now ++ second.now)))) }
    ensures somewhere { IfOk result (λ b. b ≡ false
        → HoldsSomewhere (conj_holds theme_holds (seconds (first.now ++ second.now)))) }
{
    match Theme::refute(alloc, &texts_of(alloc, first, second)?)? {
        Verdict::Empty => Ok(true),
        Verdict::Inhabited | Verdict::Unknown => Ok(false),
    }
}

/// Copies of the text atoms of both tuples, those of the first one before those of the second.
fn texts_of(alloc: Global, first: &Tuple, second: &Tuple) -> Result<Vec<ThemeAtom>, NoMemory>
    ensures value { IfOk result (λ v. v.items ≡ seconds (first.now ++ second.now)) }
    ensures normal { IfOk result (λ v. AllByRecursion IsNormalTheme v.items) }
{
    let mut texts = Vec::new(alloc);
    add_texts(&mut texts, &first.atoms)?;
    add_texts(&mut texts, &second.atoms)?;
    Ok(texts)
}

/// Adds copies of the text atoms.
fn add_texts(texts: &mut Vec<ThemeAtom>, atoms: &[Atom]) -> Result<(), NoMemory>
    ensures { OnOk result (texts.new.items ≡ texts.old.items ++ seconds atoms.now) }
{
    for atom in atoms {
        if let BothAtom::Second(text) = atom {
            texts.push(text.copy()?)?;
        }
    }
    Ok(())
}

/// The rows of both tuples, those of the first one before those of the second.
pub(crate) fn rows_of<'a>(
    alloc: Global,
    first: &'a Tuple,
    second: &'a Tuple,
) -> Result<Vec<&'a Row>, NoMemory>
    ensures value { IfOk result (λ v. lent v.items ≡ firsts (first.now ++ second.now)) }
    ensures coefs { IfOk result (λ v. AllByRecursion (λ r. AreCoefs r.coefs) (lent v.items)) }
    ensures normal { IfOk result (λ v. AllByRecursion IsLinearAtom (lent v.items)) }
    ensures tuples { IfOk result (λ v. IsNormalTuple first.now × IsNormalTuple second.now) }
{
    let mut rows = Vec::new(alloc);
    add_rows(&mut rows, &first.atoms)?;
    add_rows(&mut rows, &second.atoms)?;
    Ok(rows)
}

/// Adds the rows.
fn add_rows<'a>(rows: &mut Vec<&'a Row>, atoms: &'a [Atom]) -> Result<(), NoMemory>
    ensures { OnOk result (lent rows.new.items ≡ lent rows.old.items ++ firsts atoms.now) }
{
    for atom in atoms {
        if let BothAtom::First(row) = atom {
            rows.push(row)?;
        }
    }
    Ok(())
}
