//! Operands of comparisons, and arguments of relations and views.
ghost use Rattle.std.specs.Prelude.{◌≡◌, ◌++◌, ◌<ℤ◌, pos, [], OnOk};
ghost use Rattle.ded_num.specs.Length.{IsWithin};
ghost use Rattle.ded_model.specs.Sum.{ArePartsWithin};
ghost use Rattle.ded_print.specs.Tuples.{sign_text};
ghost use Rattle.ded_dump.specs.Operands.{number_over, magnitude, product_text, later_product_text};
ghost use Rattle.ded_dump.specs.Operands.{later_products_text, later_constant_text, parts_text, sum_text, operand_text};
ghost use Rattle.ded_dump.specs.Operands.{operands_text, member_text};

use crate::text::Text;
use ded_model::bound::Frac;
use ded_model::formula::{Operand, Operands, Term};
use ded_model::memory::NoMemory;
use ded_model::name::Name;

/// Puts a relation or view with its arguments.
///
/// # Errors
/// Out of memory.
pub(crate) fn put_member(text: &mut Text, name: &Name, operands: &Operands) -> Result<(), NoMemory>
    ensures { OnOk result (text.new ≡ text.old ++ member_text name.now operands.now) }
{
    text.put_name(name)?;
    text.put(b"(")?;
    put_operands(text, operands.list.as_slice())?;
    text.put(b")")
}

/// Puts operands, with a comma and a blank between them.
fn put_operands(text: &mut Text, operands: &[Operand]) -> Result<(), NoMemory>
    ensures { OnOk result (text.new ≡ text.old ++ operands_text [] operands.now) }
{
    let mut lead: &[u8] = b"";
    for operand in operands {
        text.put(lead)?;
        put_operand(text, operand)?;
        lead = b", ";
    }
    Ok(())
}

/// Puts an operand.
///
/// # Errors
/// Out of memory.
pub(crate) fn put_operand(text: &mut Text, operand: &Operand) -> Result<(), NoMemory>
    ensures { OnOk result (text.new ≡ text.old ++ operand_text operand.now) }
{
    match operand {
        Operand::Single(name) => text.put_name(name),
        Operand::Sum(term) => put_sum(text, term),
        Operand::Quoted(quoted) => text.put_quoted(quoted),
    }
}

/// Puts a sum.
fn put_sum(text: &mut Text, term: &Term) -> Result<(), NoMemory>
    ensures { OnOk result (text.new ≡ text.old ++ sum_text term.now) }
{
    put_parts(text, term.parts.list.as_slice(), term.constant, term.over)
}

/// Puts the names of a sum with their coefficients and then the constant, or the constant alone.
fn put_parts(
    text: &mut Text,
    parts: &[(Name, i128)],
    constant: i128,
    over: i128,
) -> Result<(), NoMemory>
    requires parts { ArePartsWithin 112 parts.now }
    requires constant { IsWithin 112 constant }
    requires within { IsWithin 112 over }
    requires positive { pos 0 <ℤ over }
    ensures { OnOk result (text.new ≡ text.old ++ parts_text over constant parts.now) }
{
    let Some((first, later)) = parts.split_first() else {
        return put_number(text, constant, over);
    };
    put_first(text, first, over)?;
    put_later_products(text, later, over)?;
    put_later_constant(text, constant, over)
}

/// Puts the first name with its coefficient.
fn put_first(text: &mut Text, part: &(Name, i128), over: i128) -> Result<(), NoMemory>
    requires short { IsWithin 112 part.now.1 }
    requires within { IsWithin 112 over }
    requires positive { pos 0 <ℤ over }
    ensures { OnOk result (text.new ≡ text.old ++ product_text over part.now.1 part.now.0) }
{
    put_product(text, part.1, &part.0, over)
}

/// Puts the names after the first, each with its sign and its coefficient.
fn put_later_products(text: &mut Text, parts: &[(Name, i128)], over: i128) -> Result<(), NoMemory>
    requires short { ArePartsWithin 112 parts.now }
    requires within { IsWithin 112 over }
    requires positive { pos 0 <ℤ over }
    ensures { OnOk result (text.new ≡ text.old ++ later_products_text over parts.now) }
{
    for (name, a) in parts {
        put_later_product(text, *a, name, over)?;
    }
    Ok(())
}

/// Puts a name with the sign and the magnitude of its coefficient.
fn put_later_product(text: &mut Text, a: i128, name: &Name, over: i128) -> Result<(), NoMemory>
    requires short { IsWithin 112 a }
    requires within { IsWithin 112 over }
    requires positive { pos 0 <ℤ over }
    ensures { OnOk result (text.new ≡ text.old ++ later_product_text over a name.now) }
{
    text.put(sign_bytes(a))?;
    put_product(text, magnitude(a), name, over)
}

/// Puts a name with its coefficient.
fn put_product(text: &mut Text, a: i128, name: &Name, over: i128) -> Result<(), NoMemory>
    requires short { IsWithin 112 a }
    requires within { IsWithin 112 over }
    requires positive { pos 0 <ℤ over }
    ensures { OnOk result (text.new ≡ text.old ++ product_text over a name.now) }
{
    put_number(text, a, over)?;
    text.put(b"*")?;
    text.put_name(name)
}

/// Puts the constant after names, where it isn't 0.
fn put_later_constant(text: &mut Text, constant: i128, over: i128) -> Result<(), NoMemory>
    requires short { IsWithin 112 constant }
    requires within { IsWithin 112 over }
    requires positive { pos 0 <ℤ over }
    ensures { OnOk result (text.new ≡ text.old ++ later_constant_text over constant) }
{
    if constant == 0 {
        return Ok(());
    }
    text.put(sign_bytes(constant))?;
    put_number(text, magnitude(constant), over)
}

/// Puts a number of a sum in lowest terms.
fn put_number(text: &mut Text, num: i128, den: i128) -> Result<(), NoMemory>
    requires short { IsWithin 112 num }
    requires within { IsWithin 112 den }
    requires positive { pos 0 <ℤ den }
    ensures { OnOk result (text.new ≡ text.old ++ number_over den num) }
{
    text.put_fraction(Frac { num, den })
}

/// The number without its sign.
fn magnitude(a: i128) -> i128
    requires { IsWithin 112 a }
    ensures value { result ≡ magnitude a }
    ensures short { IsWithin 112 result }
{
    if a < 0 { -a } else { a }
}

/// The sign of a later number between blanks.
fn sign_bytes(a: i128) -> &'static [u8]
    ensures { result.now ≡ sign_text a }
{
    if a < 0 { b" - " } else { b" + " }
}
