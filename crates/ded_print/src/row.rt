//! Rows.
ghost use Rattle.std.specs.Prelude.{◌≡◌};
ghost use Rattle.ded_num.specs.Length.{IsShort};
ghost use Rattle.ded_model.specs.Coefs.{AreCoefs};
ghost use Rattle.ded_print.specs.Gathering.{output, Puts};
ghost use Rattle.ded_print.specs.Tuples.{signed, term_text, sign_text, later_term_text, later_terms_text, op_text};
ghost use Rattle.ded_print.specs.Tuples.{row_with_text, row_text, unlike_with_text, unlike_text};

use crate::gathered::Gathered;
use crate::naming::SlotNames;
use crate::number::{put_integer, put_magnitude};
use ded_io::Sink;
use ded_model::row::{Row, RowOp};
use ded_model::slot::Slot;

/// Puts a row as a comparison of its terms with a number.
pub(crate) fn put_row<N: SlotNames, K: Sink>(
    row: &Row,
    names: &N,
    gathered: &mut Gathered,
    sink: &mut K,
)
    ensures { Puts
        (output (K.contents sink.old) (K.faults sink.old) gathered.old)
        (output (K.contents sink.new) (K.faults sink.new) gathered.new)
        (row_text (N.names names.now) row.now) }
{
    put_comparison(
        row.coefs.list(),
        row.op,
        row.constant,
        names,
        gathered,
        sink,
    );
}

/// Puts a row that is given by its parts.
fn put_comparison<N: SlotNames, K: Sink>(
    coefs: &[(Slot, i128)],
    op: RowOp,
    constant: i128,
    names: &N,
    gathered: &mut Gathered,
    sink: &mut K,
)
    requires coefs { AreCoefs coefs.now }
    requires constant { IsShort constant }
    ensures { Puts
        (output (K.contents sink.old) (K.faults sink.old) gathered.old)
        (output (K.contents sink.new) (K.faults sink.new) gathered.new)
        (row_with_text (N.names names.now) coefs.now op constant) }
{
    let Some((&(slot, a), later)) = coefs.split_first() else {
        gathered.put(sink, b"0 < 0");
        return;
    };
    let turned = a < 0;
    put_term(slot, turned_if(turned, a), names, gathered, sink);
    put_later_terms(later, turned, names, gathered, sink);
    gathered.put(sink, op_bytes(turned, op));
    put_integer(turned_if(true, turned_if(turned, constant)), gathered, sink);
}

/// Puts a row with `!=` in the place of its sign.
pub(crate) fn put_unlike<N: SlotNames, K: Sink>(
    row: &Row,
    names: &N,
    gathered: &mut Gathered,
    sink: &mut K,
)
    ensures { Puts
        (output (K.contents sink.old) (K.faults sink.old) gathered.old)
        (output (K.contents sink.new) (K.faults sink.new) gathered.new)
        (unlike_text (N.names names.now) row.now) }
{
    put_inequation(row.coefs.list(), row.constant, names, gathered, sink);
}

/// Puts a row with `!=` in the place of its sign that is given by its parts.
fn put_inequation<N: SlotNames, K: Sink>(
    coefs: &[(Slot, i128)],
    constant: i128,
    names: &N,
    gathered: &mut Gathered,
    sink: &mut K,
)
    requires coefs { AreCoefs coefs.now }
    requires constant { IsShort constant }
    ensures { Puts
        (output (K.contents sink.old) (K.faults sink.old) gathered.old)
        (output (K.contents sink.new) (K.faults sink.new) gathered.new)
        (unlike_with_text (N.names names.now) coefs.now constant) }
{
    let Some((&(slot, a), later)) = coefs.split_first() else {
        gathered.put(sink, b"0 != ");
        put_integer(turned_if(true, constant), gathered, sink);
        return;
    };
    let reversed = a < 0;
    put_term(slot, turned_if(reversed, a), names, gathered, sink);
    put_later_terms(later, reversed, names, gathered, sink);
    gathered.put(sink, b" != ");
    put_integer(
        turned_if(true, turned_if(reversed, constant)),
        gathered,
        sink,
    );
}

/// The number, or its negative where all signs are turned.
fn turned_if(turned: bool, a: i128) -> i128
    requires { IsShort a }
    ensures value { result ≡ signed turned a }
    ensures short { IsShort result }
{
    if turned { -a } else { a }
}

/// The sign of a comparison between blanks, where all signs are turned or not.
fn op_bytes(turned: bool, op: RowOp) -> &'static [u8]
    ensures { result.now ≡ op_text turned op }
{
    match (op, turned) {
        (RowOp::Zero, _) => b" = ",
        (RowOp::AtMost, false) => b" <= ",
        (RowOp::AtMost, true) => b" >= ",
        (RowOp::Below, false) => b" < ",
        (RowOp::Below, true) => b" > ",
    }
}

/// Puts a term with the magnitude of its coefficient.
fn put_term<N: SlotNames, K: Sink>(
    slot: Slot,
    a: i128,
    names: &N,
    gathered: &mut Gathered,
    sink: &mut K,
)
    ensures { Puts
        (output (K.contents sink.old) (K.faults sink.old) gathered.old)
        (output (K.contents sink.new) (K.faults sink.new) gathered.new)
        (term_text (N.names names.now) slot a) }
{
    let magnitude = a.unsigned_abs();
    if magnitude == 1 {
        names.put_name(slot, gathered, sink);
        return;
    }
    put_magnitude(magnitude, gathered, sink);
    gathered.put(sink, b"*");
    names.put_name(slot, gathered, sink);
}

/// The sign of a later term between blanks, by its coefficient.
fn sign_bytes(a: i128) -> &'static [u8]
    ensures { result.now ≡ sign_text a }
{
    if a < 0 { b" - " } else { b" + " }
}

/// Puts a term after its sign.
fn put_later_term<N: SlotNames, K: Sink>(
    slot: Slot,
    a: i128,
    names: &N,
    gathered: &mut Gathered,
    sink: &mut K,
)
    ensures { Puts
        (output (K.contents sink.old) (K.faults sink.old) gathered.old)
        (output (K.contents sink.new) (K.faults sink.new) gathered.new)
        (later_term_text (N.names names.now) slot a) }
{
    gathered.put(sink, sign_bytes(a));
    put_term(slot, a, names, gathered, sink);
}

/// Puts the terms after the first, each after its sign, where all signs are turned or not.
fn put_later_terms<N: SlotNames, K: Sink>(
    coefs: &[(Slot, i128)],
    turned: bool,
    names: &N,
    gathered: &mut Gathered,
    sink: &mut K,
)
    requires { AreCoefs coefs.now }
    ensures { Puts
        (output (K.contents sink.old) (K.faults sink.old) gathered.old)
        (output (K.contents sink.new) (K.faults sink.new) gathered.new)
        (later_terms_text (N.names names.now) turned coefs.now) }
{
    for (slot, a) in coefs {
        put_later_term(*slot, turned_if(turned, *a), names, gathered, sink);
    }
}
