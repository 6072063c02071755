//! Lists of tuples that are read from texts, and written as such: each tuple stands on a line, as answers are printed.
//! The columns are `x`, `y` and `n text`.
ghost use Rattle.std.specs.Prelude.{◌≡◌, ◌∷◌, [], IfOk};
ghost use Rattle.std.specs.List.{AllByRecursion};
ghost use Rattle.ded_readback.specs.Plain.{IsPlainHeading};

use ded_atoms::laws::normal_tuples;
use ded_atoms::{Atoms, tuples};
use ded_genrel::{GenRel, copy_conj};
use ded_io::{BytesSink, Failed, send};
use ded_model::answer::Answer;
use ded_model::memory::NoMemory;
use ded_model::name::{Column, Heading, Name};
use ded_model::slot::{Slot, Sort};
use ded_model::tuple::{Atom, Tuple};
use ded_print::print_tuple;
use ded_readback::read_answer;
use ded_theory::Theory;
use std::alloc::Global;
use std::test::Fail;

/// The slot of `x`.
pub(crate) const X: Slot = Slot {
    number: 0,
    sort: Sort::Rat,
};

/// A column with a name of one letter.
pub(crate) fn column(alloc: Global, letter: u8, sort: Sort) -> Result<Column, NoMemory>
    ensures { IfOk result (λ c. c.name ≡ letter ∷ []) }
{
    let mut bytes = Vec::new(alloc);
    bytes.push(letter)?;
    Ok(Column {
        name: Name { bytes },
        sort,
    })
}

/// The columns of all texts.
pub(crate) fn heading(alloc: Global) -> Result<Heading, NoMemory>
    ensures { IfOk result (λ h. IsPlainHeading h) }
{
    let mut columns = Vec::new(alloc);
    columns.push(column(alloc, b'x', Sort::Rat)?)?;
    columns.push(column(alloc, b'y', Sort::Rat)?)?;
    columns.push(column(alloc, b'n', Sort::Text)?)?;
    Ok(Heading { columns })
}

/// The tuples that the lines spell.
pub(crate) fn read(alloc: Global, lines: &str) -> Result<Answer, Fail> {
    read_over(alloc, &heading(alloc)?, lines)
}

/// The tuples over the columns that the lines spell.
pub(crate) fn read_over(alloc: Global, heading: &Heading, lines: &str) -> Result<Answer, Fail>
    requires { IsPlainHeading heading.now }
{
    let text = format!(in alloc; "answer {}\n{lines}end\n", lines.lines().count())?;
    Ok(read_answer(alloc, heading, text.as_bytes())?)
}

/// The atoms of a tuple.
pub(crate) fn conj(alloc: Global, tuple: &Tuple) -> Result<Vec<Atom>, NoMemory>
    ensures { IfOk result (λ v. AllByRecursion ⟦<Atoms as Theory>⟧.normal v.items) }
{
    normal_tuples();
    copy_conj::<Atoms>(alloc, tuple.atoms.as_slice())
}

/// The list that the lines spell.
pub(crate) fn list(alloc: Global, lines: &str) -> Result<GenRel<Atoms>, Fail> {
    list_of(alloc, &read(alloc, lines)?)
}

/// The list of the tuples.
pub(crate) fn list_of(alloc: Global, answer: &Answer) -> Result<GenRel<Atoms>, Fail> {
    let mut list = GenRel::new(alloc);
    for tuple in &answer.tuples.list {
        list.push(conj(alloc, tuple)?)?;
    }
    Ok(list)
}

/// Writes tuples, each on a line.
pub(crate) fn put_tuples(
    heading: &Heading,
    tuples: &[Tuple],
    sink: &mut BytesSink,
) -> Result<(), Failed> {
    for tuple in tuples {
        print_tuple(heading, tuple, sink)?;
        send(sink, b"\n")?;
    }
    Ok(())
}

/// A sink with room for a page.
pub(crate) fn page(alloc: Global) -> Result<BytesSink, NoMemory> {
    BytesSink::new(alloc, 10_000, 10_000, &[])
}

/// Whether the tuples are those that the lines spell.
pub(crate) fn are_written(alloc: Global, tuples: &[Tuple], lines: &str) -> Result<bool, Fail> {
    let heading = heading(alloc)?;
    let mut sink = page(alloc)?;
    put_tuples(&heading, tuples, &mut sink)?;
    Ok(sink.contents() == lines.as_bytes())
}

/// Whether the conjunctions are the tuples that the lines spell.
pub(crate) fn is_written(alloc: Global, list: GenRel<Atoms>, lines: &str) -> Result<bool, Fail> {
    are_written(alloc, &tuples(alloc, list)?.list, lines)
}
