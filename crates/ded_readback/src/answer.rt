//! Answers.
ghost use Rattle.std.specs.Prelude.{◌≡◌, List, IfOk, IfErr};
ghost use Rattle.ded_model.specs.Row.{Atom};
ghost use Rattle.ded_model.specs.declared.fault.ParseFault.TheVariants.{NotRead};
ghost use Rattle.ded_readback.specs.Plain.{IsPlainHeading};
ghost use Rattle.ded_readback.specs.Spelling.{SpellsAnswer};

use crate::over::are_over;
use crate::printed::is_printed;
use crate::tuple::answer_tuples;
use ded_model::answer::Answer;
use ded_model::fault::ParseFault;
use ded_model::name::{Column, Heading};
use ded_model::tuple::Tuples;
use std::alloc::Global;

/// The one answer over the heading that the bytes spell.
///
/// The heading needs distinct names, each a letter or `_` and then letters, digits and `_`.
///
/// # Errors
/// `NotRead` exactly where they spell none; `Memory` where there is no memory.
pub fn read_answer(alloc: Global, heading: &Heading, bytes: &[u8]) -> Result<Answer, ParseFault>
    requires { IsPlainHeading heading.now }
    ensures heading { IfOk result (λ a. a.heading ≡ heading.now) }
    ensures spelled { IfOk result (λ a. SpellsAnswer bytes.now heading.now a.tuples) }
    ensures none { IfErr result (λ e. e ≡ NotRead →
        (tuples : List (List Atom)) → SpellsAnswer bytes.now heading.now tuples → ⊥) }
{
    let columns = columns_of(heading);
    let list = answer_tuples(alloc, columns, bytes)?;
    if !are_over(columns, list.as_slice()) {
        return Err(ParseFault::NotRead);
    }
    let answer = Answer {
        heading: heading.copy()?,
        tuples: Tuples { list },
    };
    if !is_printed(alloc, &answer, bytes)? {
        return Err(ParseFault::NotRead);
    }
    Ok(answer)
}

/// The columns of a heading.
fn columns_of(heading: &Heading) -> &[Column]
    ensures { result.now ≡ heading.now }
{
    heading.columns.as_slice()
}
