//! The lines that stretches are drawn by.
ghost use Rattle.std.specs.Prelude.{◌≡◌, ◌++◌, OnOk};
ghost use Rattle.ded_strokes.specs.Stretches.{same_stroke, joined, line_of, lines_from, lines_of};

use crate::parting::Stretch;
use crate::stretch::Stroke;
use ded_model::memory::NoMemory;

/// Adds the lines of stretches that follow each other: neighbours that are drawn alike are one line, from where the
/// first one begins to where the last one ends, and seams are none.
///
/// # Errors
/// Out of memory.
pub fn add_lines(lines: &mut Vec<Stretch>, stretches: &[Stretch]) -> Result<(), NoMemory>
    ensures { OnOk result (lines.new.items ≡ lines.old.items ++ lines_of stretches.now) }
{
    let Some((first, behind)) = stretches.split_first() else {
        return Ok(());
    };
    add_lines_from(lines, *first, behind)
}

/// Adds the lines of a stretch and of those that follow it.
///
/// # Errors
/// Out of memory.
fn add_lines_from(
    lines: &mut Vec<Stretch>,
    first: Stretch,
    behind: &[Stretch],
) -> Result<(), NoMemory>
    ensures { OnOk result (lines.new.items ≡ lines.old.items ++ lines_from first behind.now) }
{
    let mut line = first;
    for next in behind {
        if is_same(line.stroke, next.stroke) {
            line = joined(line, *next);
        } else {
            add_line(lines, line)?;
            line = *next;
        }
    }
    add_line(lines, line)
}

/// The first stretch up to the end of the second one.
fn joined(first: Stretch, second: Stretch) -> Stretch
    ensures { result ≡ joined first second }
{
    Stretch {
        from: first.from,
        to: second.to,
        stroke: first.stroke,
    }
}

/// Adds the stretch as a line, unless it is a seam.
///
/// # Errors
/// Out of memory.
fn add_line(lines: &mut Vec<Stretch>, line: Stretch) -> Result<(), NoMemory>
    ensures { OnOk result (lines.new.items ≡ lines.old.items ++ line_of line) }
{
    if !is_same(line.stroke, Stroke::Seam) {
        lines.push(line)?;
    }
    Ok(())
}

/// Whether both are the same.
fn is_same(first: Stroke, second: Stroke) -> bool
    ensures { result ≡ same_stroke first second }
{
    first == second
}
