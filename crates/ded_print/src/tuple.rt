//! Tuples.
ghost use Rattle.std.specs.Prelude.{◌≡◌};
ghost use Rattle.ded_io.specs.Causes.{HasCause};
ghost use Rattle.ded_io.specs.Devices.{AddsAll};
ghost use Rattle.ded_print.specs.Gathering.{output, Puts};
ghost use Rattle.ded_print.specs.Tuples.{column_names, atom_text, later_atoms_text, tuple_text};

use crate::gathered::Gathered;
use crate::naming::{ColumnNames, SlotNames};
use crate::row::put_row;
use crate::theme::put_theme;
use ded_io::{Failed, Sink};
use ded_model::name::{Column, Heading};
use ded_model::tuple::{Atom, BothAtom, Tuple};

/// Prints a tuple over the columns of a heading.
///
/// # Errors
/// `Failed` only where the sink's count of faults rose.
pub fn print_tuple<K: Sink>(heading: &Heading, tuple: &Tuple, sink: &mut K) -> Result<(), Failed>
    ensures bytes { AddsAll (K.contents sink.old) (K.contents sink.new) result
        (tuple_text (column_names heading.now) tuple.now) }
    ensures cause { HasCause (K.faults sink.old) (K.faults sink.new) result }
{
    let mut gathered = Gathered::new();
    let names = ColumnNames::new(columns_of(heading));
    put_atoms(atoms_of(tuple), &names, &mut gathered, sink);
    gathered.finish(sink)
}

/// The columns of a heading.
pub(crate) fn columns_of(heading: &Heading) -> &[Column]
    ensures { result.now ≡ heading.now }
{
    heading.columns.as_slice()
}

/// The atoms of a tuple.
pub(crate) fn atoms_of(tuple: &Tuple) -> &[Atom]
    ensures { result.now ≡ tuple.now }
{
    tuple.atoms.as_slice()
}

/// Puts a tuple that is given by its atoms.
pub(crate) fn put_atoms<N: SlotNames, K: Sink>(
    atoms: &[Atom],
    names: &N,
    gathered: &mut Gathered,
    sink: &mut K,
)
    ensures { Puts
        (output (K.contents sink.old) (K.faults sink.old) gathered.old)
        (output (K.contents sink.new) (K.faults sink.new) gathered.new)
        (tuple_text (N.names names.now) atoms.now) }
{
    let Some((first, later)) = atoms.split_first() else {
        gathered.put(sink, b"{ }");
        return;
    };
    gathered.put(sink, b"{ ");
    put_atom(first, names, gathered, sink);
    put_later_atoms(later, names, gathered, sink);
    gathered.put(sink, b" }");
}

/// Puts each atom after a comma and a blank.
fn put_later_atoms<N: SlotNames, K: Sink>(
    atoms: &[Atom],
    names: &N,
    gathered: &mut Gathered,
    sink: &mut K,
)
    ensures { Puts
        (output (K.contents sink.old) (K.faults sink.old) gathered.old)
        (output (K.contents sink.new) (K.faults sink.new) gathered.new)
        (later_atoms_text (N.names names.now) atoms.now) }
{
    for atom in atoms {
        gathered.put(sink, b", ");
        put_atom(atom, names, gathered, sink);
    }
}

/// Puts an atom: a row or a text atom.
fn put_atom<N: SlotNames, K: Sink>(atom: &Atom, names: &N, gathered: &mut Gathered, sink: &mut K)
    ensures { Puts
        (output (K.contents sink.old) (K.faults sink.old) gathered.old)
        (output (K.contents sink.new) (K.faults sink.new) gathered.new)
        (atom_text (N.names names.now) atom.now) }
{
    match atom {
        BothAtom::First(row) => put_row(row, names, gathered, sink),
        BothAtom::Second(atom) => put_theme(atom, names, gathered, sink),
    }
}
