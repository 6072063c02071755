//! The made script, fed statement by statement.
ghost use Rattle.std.specs.Prelude.{◌<◌, ◌≤◌, ◌-◌, IfOk, OnErr, map};
ghost use Rattle.std.specs.List.{flat_map};
ghost use Rattle.ded_io.specs.Causes.{HasCause};
ghost use Rattle.ded_dialogue.specs.Streams.{Grows, Breaks};
ghost use Rattle.ded_run.specs.Made.{below, land_insert, land_row, line, lines, made_questions, made_script};
ghost use Rattle.ded_run.specs.Made.{road_insert};
ghost use Rattle.ded_run.specs.Parts.{part_bytes, parts_bytes};

use ded_dialogue::{Answering, Dialogue};
use ded_io::{Failed, Sink};
use itoa::Buffer;

/// A part of a statement: a text as it stands, or a number in decimal.
#[derive(Clone, Copy)]
enum TextPart<'a> {
    Text(&'a [u8]),
    Number(u32),
}

/// Feeds the whole made script of a size of 1 to 100.
///
/// # Errors
/// `Failed` only where the sink's count of faults rose.
pub fn feed_script<A: Answering, K: Sink>(
    dialogue: &mut Dialogue<A>,
    size: u32,
    sink: &mut K,
) -> Result<(), Failed>
    requires low { 1 ≤ size }
    requires high { size ≤ 100 }
    ensures grows { IfOk result (λ _. Grows A.answers A.state dialogue.old dialogue.new (K.contents sink.old)
        (K.contents sink.new) (made_script size)) }
    ensures breaks { OnErr result (Breaks A.answers A.state dialogue.old (K.contents sink.old)
        (K.contents sink.new) (made_script size)) }
    ensures cause { HasCause (K.faults sink.old) (K.faults sink.new) result }
{
    dialogue.feed(
        b"relation Land(n text, x, y);\nrelation Road(k text, x, y);\n",
        sink,
    )?;
    feed_lands(dialogue, size, sink)?;
    feed_roads(dialogue, size, sink)?;
    dialogue.feed(VIEW, sink)?;
    feed_questions(dialogue, size, sink)
}

const VIEW: &[u8] =
    b"view Cross(n text, k text) := exists x exists y (Land(n, x, y) and Road(k, x, y));\n";

/// Feeds the inserts of all rectangles, row by row.
fn feed_lands<A: Answering, K: Sink>(
    dialogue: &mut Dialogue<A>,
    size: u32,
    sink: &mut K,
) -> Result<(), Failed>
    requires { size ≤ 100 }
    ensures grows { IfOk result (λ _. Grows A.answers A.state dialogue.old dialogue.new (K.contents sink.old)
        (K.contents sink.new) (lines (flat_map (land_row size) (below size)))) }
    ensures breaks { OnErr result (Breaks A.answers A.state dialogue.old (K.contents sink.old) (K.contents sink.new)
        (lines (flat_map (land_row size) (below size)))) }
    ensures cause { HasCause (K.faults sink.old) (K.faults sink.new) result }
{
    for row in 0..size {
        feed_land_row(dialogue, row, size, sink)?;
    }
    Ok(())
}

/// Feeds the inserts of the rectangles of a row.
fn feed_land_row<A: Answering, K: Sink>(
    dialogue: &mut Dialogue<A>,
    row: u32,
    size: u32,
    sink: &mut K,
) -> Result<(), Failed>
    requires row { row < 100 }
    requires size { size ≤ 100 }
    ensures grows { IfOk result (λ _. Grows A.answers A.state dialogue.old dialogue.new (K.contents sink.old)
        (K.contents sink.new) (lines (land_row size row))) }
    ensures breaks { OnErr result (Breaks A.answers A.state dialogue.old (K.contents sink.old) (K.contents sink.new)
        (lines (land_row size row))) }
    ensures cause { HasCause (K.faults sink.old) (K.faults sink.new) result }
{
    for column in 0..size {
        feed_land(dialogue, row, column, sink)?;
    }
    Ok(())
}

/// Feeds the insert of the rectangle in this row and column.
fn feed_land<A: Answering, K: Sink>(
    dialogue: &mut Dialogue<A>,
    row: u32,
    column: u32,
    sink: &mut K,
) -> Result<(), Failed>
    requires row { row < 100 }
    requires column { column < 100 }
    ensures grows { IfOk result (λ _. Grows A.answers A.state dialogue.old dialogue.new (K.contents sink.old)
        (K.contents sink.new) (line (land_insert row column))) }
    ensures breaks { OnErr result (Breaks A.answers A.state dialogue.old (K.contents sink.old) (K.contents sink.new)
        (line (land_insert row column))) }
    ensures cause { HasCause (K.faults sink.old) (K.faults sink.new) result }
{
    let parts = [
        TextPart::Text(b"insert Land { n = 'r"),
        TextPart::Number(row),
        TextPart::Text(b"c"),
        TextPart::Number(column),
        TextPart::Text(b"', x >= "),
        TextPart::Number(10 * column),
        TextPart::Text(b", x <= "),
        TextPart::Number(10 * column + 10),
        TextPart::Text(b", y >= "),
        TextPart::Number(10 * row),
        TextPart::Text(b", y <= "),
        TextPart::Number(10 * row + 10),
        TextPart::Text(b" }"),
    ];
    feed_statement(dialogue, &parts, sink)
}

/// Feeds the inserts of all bands.
fn feed_roads<A: Answering, K: Sink>(
    dialogue: &mut Dialogue<A>,
    size: u32,
    sink: &mut K,
) -> Result<(), Failed>
    requires { size ≤ 100 }
    ensures grows { IfOk result (λ _. Grows A.answers A.state dialogue.old dialogue.new (K.contents sink.old)
        (K.contents sink.new) (lines (map road_insert (below size)))) }
    ensures breaks { OnErr result (Breaks A.answers A.state dialogue.old (K.contents sink.old) (K.contents sink.new)
        (lines (map road_insert (below size)))) }
    ensures cause { HasCause (K.faults sink.old) (K.faults sink.new) result }
{
    for band in 0..size {
        feed_road(dialogue, band, sink)?;
    }
    Ok(())
}

/// Feeds the insert of a band.
fn feed_road<A: Answering, K: Sink>(
    dialogue: &mut Dialogue<A>,
    band: u32,
    sink: &mut K,
) -> Result<(), Failed>
    requires { band < 100 }
    ensures grows { IfOk result (λ _. Grows A.answers A.state dialogue.old dialogue.new (K.contents sink.old)
        (K.contents sink.new) (line (road_insert band))) }
    ensures breaks { OnErr result (Breaks A.answers A.state dialogue.old (K.contents sink.old) (K.contents sink.new)
        (line (road_insert band))) }
    ensures cause { HasCause (K.faults sink.old) (K.faults sink.new) result }
{
    let parts = [
        TextPart::Text(b"insert Road { k = 's"),
        TextPart::Number(band),
        TextPart::Text(b"', y - x >= "),
        TextPart::Number(10 * band),
        TextPart::Text(b", y - x <= "),
        TextPart::Number(10 * band + 1),
        TextPart::Text(b" }"),
    ];
    feed_statement(dialogue, &parts, sink)
}

/// Feeds the questions of the made script.
fn feed_questions<A: Answering, K: Sink>(
    dialogue: &mut Dialogue<A>,
    size: u32,
    sink: &mut K,
) -> Result<(), Failed>
    requires low { 1 ≤ size }
    requires high { size ≤ 100 }
    ensures grows { IfOk result (λ _. Grows A.answers A.state dialogue.old dialogue.new (K.contents sink.old)
        (K.contents sink.new) (lines (made_questions size))) }
    ensures breaks { OnErr result (Breaks A.answers A.state dialogue.old (K.contents sink.old) (K.contents sink.new)
        (lines (made_questions size))) }
    ensures cause { HasCause (K.faults sink.old) (K.faults sink.new) result }
{
    let last = TextPart::Number(size - 1);
    let corner = [
        TextPart::Text(b"ask Cross('r"),
        last,
        TextPart::Text(b"c0', 's"),
        last,
        TextPart::Text(b"')"),
    ];
    let other_corner = [
        TextPart::Text(b"ask Cross('r0c"),
        last,
        TextPart::Text(b"', 's0')"),
    ];
    dialogue.feed(b"ask exists n text exists k text (Cross(n, k));\n", sink)?;
    feed_statement(dialogue, &corner, sink)?;
    feed_statement(dialogue, &other_corner, sink)?;
    dialogue.feed(b"box Land;\nbox Road;\n", sink)
}

/// Feeds a statement of these parts, with a `;` and a line feed.
fn feed_statement<A: Answering, K: Sink>(
    dialogue: &mut Dialogue<A>,
    parts: &[TextPart<'_>],
    sink: &mut K,
) -> Result<(), Failed>
    ensures grows { IfOk result (λ _. Grows A.answers A.state dialogue.old dialogue.new (K.contents sink.old)
        (K.contents sink.new) (line (parts_bytes parts.now))) }
    ensures breaks { OnErr result (Breaks A.answers A.state dialogue.old (K.contents sink.old) (K.contents sink.new)
        (line (parts_bytes parts.now))) }
    ensures cause { HasCause (K.faults sink.old) (K.faults sink.new) result }
{
    feed_parts(dialogue, parts, sink)?;
    dialogue.feed(b";\n", sink)
}

/// Feeds the parts of a statement in turn.
fn feed_parts<A: Answering, K: Sink>(
    dialogue: &mut Dialogue<A>,
    parts: &[TextPart<'_>],
    sink: &mut K,
) -> Result<(), Failed>
    ensures grows { IfOk result (λ _. Grows A.answers A.state dialogue.old dialogue.new (K.contents sink.old)
        (K.contents sink.new) (parts_bytes parts.now)) }
    ensures breaks { OnErr result (Breaks A.answers A.state dialogue.old (K.contents sink.old) (K.contents sink.new)
        (parts_bytes parts.now)) }
    ensures cause { HasCause (K.faults sink.old) (K.faults sink.new) result }
{
    for part in parts {
        feed_part(dialogue, *part, sink)?;
    }
    Ok(())
}

/// Feeds a part of a statement.
fn feed_part<A: Answering, K: Sink>(
    dialogue: &mut Dialogue<A>,
    part: TextPart<'_>,
    sink: &mut K,
) -> Result<(), Failed>
    ensures grows { IfOk result (λ _. Grows A.answers A.state dialogue.old dialogue.new (K.contents sink.old)
        (K.contents sink.new) (part_bytes part.entry)) }
    ensures breaks { OnErr result (Breaks A.answers A.state dialogue.old (K.contents sink.old) (K.contents sink.new)
        (part_bytes part.entry)) }
    ensures cause { HasCause (K.faults sink.old) (K.faults sink.new) result }
{
    match part {
        TextPart::Text(bytes) => dialogue.feed(bytes, sink),
        TextPart::Number(number) => {
            let mut buffer = Buffer::new();
            dialogue.feed(buffer.format(number).as_bytes(), sink)
        }
    }
}
