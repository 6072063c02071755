//! Conjunctions without atoms that a later one implies.
ghost use Rattle.std.specs.Prelude.{[], ◌∷◌, ◌++◌, IfOk};
ghost use Rattle.std.specs.List.{AllByRecursion};
ghost use Rattle.ded_complement.specs.Pieces.{IsAlike};

use ded_model::memory::NoMemory;
use ded_theory::Theory;

/// From how many atoms on a conjunction is looked through for those that one more implies: fewer aren't worth the look.
const SHORTENED_FROM: usize = 8;

/// The conjunction with one more atom. Where it is long, it is without those that this one implies.
///
/// # Errors
/// Out of memory.
pub(crate) fn with_last<T: Theory>(
    mut rest: Vec<T::Atom>,
    last: T::Atom,
) -> Result<Vec<T::Atom>, NoMemory>
    requires normal { AllByRecursion T.normal rest.items }
    requires normal_last { T.normal last }
    ensures alike { IfOk result (λ v. IsAlike T.holds (rest.items ++ last ∷ []) v.items) }
    ensures normal { IfOk result (λ v. AllByRecursion T.normal v.items) }
{
    if rest.len() < SHORTENED_FROM {
        rest.push(last)?;
        return Ok(rest);
    }
    shortened::<T>(rest, last)
}

/// The conjunction with one more atom, and without those that this one plainly implies.
///
/// # Errors
/// Out of memory.
pub fn shortened<T: Theory>(rest: Vec<T::Atom>, last: T::Atom) -> Result<Vec<T::Atom>, NoMemory>
    requires normal { AllByRecursion T.normal rest.items }
    requires normal_last { T.normal last }
    ensures alike { IfOk result (λ v. IsAlike T.holds (rest.items ++ last ∷ []) v.items) }
    ensures normal { IfOk result (λ v. AllByRecursion T.normal v.items) }
{
    let alloc = *rest.allocator();
    let mut kept = Vec::new(alloc);
    for atom in rest {
        if T::implies(&last, &atom) {
            continue;
        }
        kept.push(atom)?;
    }
    kept.push(last)?;
    Ok(kept)
}
