//! The description of a picture: how much is drawn, and what is told besides.
ghost use Rattle.std.specs.Prelude.{◌≡◌, ◌++◌, [], map, IfOk, OnOk};
ghost use Rattle.ded_session.specs.Answered.{reply_form};
ghost use Rattle.ded_session.specs.Texts.{text_of};
ghost use Rattle.ded_drawing.specs.Descriptions.{counted_text, description, is_unseen, lines_from, lines_of};
ghost use Rattle.ded_drawing.specs.Descriptions.{lines_told, unseen_in};

use ded_cells::put_number;
use ded_dump::Text;
use ded_figures::{Look, axes_of};
use ded_io::Failed;
use ded_model::memory::NoMemory;
use ded_model::name::Name;
use ded_session::{Reply, write_reply};
use std::alloc::{AllocError, Global};

/// The lines of the description: how many tuples are drawn, how many are too long to be drawn, how many answers lack
/// the columns, and the lines of all other replies.
///
/// # Errors
/// Out of memory.
pub(crate) fn description_of(
    alloc: Global,
    look: &Look,
    drawn: usize,
    wide: usize,
    replies: &[Reply],
) -> Result<Vec<Name>, NoMemory>
    ensures { IfOk result (λ lines. lines.items ≡ description look.now drawn wide (map reply_form replies.now)) }
{
    let unseen = unseen_in(look, replies)?;
    let mut lines = Vec::new(alloc);
    lines.push(counted(alloc, b"tuples drawn: ", drawn)?)?;
    lines.push(counted(alloc, b"tuples too long to be drawn: ", wide)?)?;
    lines.push(counted(alloc, b"answers without two such columns: ", unseen)?)?;
    add_told(alloc, &mut lines, replies)?;
    Ok(lines)
}

/// How many of the replies have tuples and lack the columns.
fn unseen_in(look: &Look, replies: &[Reply]) -> Result<usize, NoMemory>
    ensures { IfOk result (λ n. n ≡ unseen_in look.now (map reply_form replies.now)) }
{
    let mut unseen: usize = 0;
    for reply in replies {
        if is_unseen(look, reply)? {
            unseen = unseen.checked_add(1).ok_or(AllocError)?;
        }
    }
    Ok(unseen)
}

/// Whether the reply has tuples and lacks the columns.
fn is_unseen(look: &Look, reply: &Reply) -> Result<bool, NoMemory>
    ensures { IfOk result (λ b. b ≡ is_unseen look.now (reply_form reply.now)) }
{
    match reply {
        Reply::Tuples(answer) => Ok(axes_of(look, &answer.heading)?.is_none()),
        Reply::Stored(heading, _) => Ok(axes_of(look, heading)?.is_none()),
        Reply::Done
        | Reply::Number(_)
        | Reply::Truth(_)
        | Reply::Boxes(_, _)
        | Reply::Steps(_)
        | Reply::Script(_)
        | Reply::Apart(_)
        | Reply::Meet(_, _)
        | Reply::Refused(_) => Ok(false),
    }
}

/// Words and a count.
fn counted(alloc: Global, words: &[u8], count: usize) -> Result<Name, NoMemory>
    ensures { IfOk result (λ line. line ≡ counted_text words.now count) }
{
    let mut text = Text::new(alloc);
    text.put(words)?;
    put_number(&mut text, count as u128)?;
    Ok(text.into_line())
}

/// Adds the lines of the replies without tuples.
fn add_told(alloc: Global, lines: &mut Vec<Name>, replies: &[Reply]) -> Result<(), NoMemory>
    ensures { OnOk result (lines.new.items ≡ lines.old.items ++ lines_told (map reply_form replies.now)) }
{
    for reply in replies {
        add_lines_of(alloc, lines, reply)?;
    }
    Ok(())
}

/// Adds the lines of a reply, unless it has tuples.
fn add_lines_of(alloc: Global, lines: &mut Vec<Name>, reply: &Reply) -> Result<(), NoMemory>
    ensures { OnOk result (lines.new.items ≡ lines.old.items ++ lines_of (reply_form reply.now)) }
{
    match reply {
        Reply::Tuples(_) | Reply::Stored(_, _) => Ok(()),
        Reply::Done
        | Reply::Number(_)
        | Reply::Truth(_)
        | Reply::Boxes(_, _)
        | Reply::Steps(_)
        | Reply::Script(_)
        | Reply::Apart(_)
        | Reply::Meet(_, _)
        | Reply::Refused(_) => add_text_of(alloc, lines, reply),
    }
}

/// Adds the lines of the text of a reply.
fn add_text_of(alloc: Global, lines: &mut Vec<Name>, reply: &Reply) -> Result<(), NoMemory>
    ensures { OnOk result (lines.new.items ≡ lines.old.items ++ lines_from [] [] (text_of (reply_form reply.now))) }
{
    let text = text_of(alloc, reply)?;
    add_lines(alloc, lines, text.bytes.as_slice())
}

/// The text of a reply.
fn text_of(alloc: Global, reply: &Reply) -> Result<Name, NoMemory>
    ensures { IfOk result (λ text. text ≡ text_of (reply_form reply.now)) }
{
    let mut text = Text::new(alloc);
    match write_reply(reply, &mut text) {
        Ok(()) => Ok(text.into_line()),
        Err(Failed) => Err(AllocError),
    }
}

/// Adds the lines that a text is cut into at its line feeds.
fn add_lines(alloc: Global, lines: &mut Vec<Name>, text: &[u8]) -> Result<(), NoMemory>
    ensures { OnOk result (lines.new.items ≡ lines_from lines.old.items [] text.now) }
{
    let mut line = Text::new(alloc);
    for byte in text {
        if *byte == b'\n' {
            lines.push(line.into_line())?;
            line = Text::new(alloc);
        } else {
            line.put(&[*byte])?;
        }
    }
    let last = line.into_line();
    if !last.bytes.is_empty() {
        lines.push(last)?;
    }
    Ok(())
}
