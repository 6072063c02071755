//! The text of a reply.
ghost use Rattle.ded_io.specs.Causes.{HasCause};
ghost use Rattle.ded_io.specs.Devices.{AddsAll};
ghost use Rattle.ded_session.specs.Answered.{reply_form};
ghost use Rattle.ded_session.specs.Texts.{text_of};

use crate::reply::Reply;
use ded_io::{Failed, Sink};
use ded_print::{
    print_answer, print_apart, print_box, print_done, print_meeting, print_number, print_plan,
    print_refusal, print_script, print_stored, print_truth,
};

/// Writes the text of a reply, or a front of it where the sink fails. It doesn't allocate.
///
/// # Errors
/// `Failed` only where the sink's count of faults rose.
pub fn write_reply<K: Sink>(reply: &Reply, sink: &mut K) -> Result<(), Failed>
    ensures bytes { AddsAll (K.contents sink.old) (K.contents sink.new) result (text_of (reply_form reply.now)) }
    ensures cause { HasCause (K.faults sink.old) (K.faults sink.new) result }
{
    match reply {
        Reply::Done => print_done(sink),
        Reply::Number(number) => print_number(u64::from(*number), sink),
        Reply::Truth(holds) => print_truth(*holds, sink),
        Reply::Tuples(answer) => print_answer(answer, sink),
        Reply::Stored(heading, tuples) => print_stored(heading, tuples.list.as_slice(), sink),
        Reply::Boxes(heading, bounds) => print_box(heading, bounds, sink),
        Reply::Steps(plan) => print_plan(plan, sink),
        Reply::Script(lines) => print_script(lines, sink),
        Reply::Apart(entries) => print_apart(entries, sink),
        Reply::Meet(first, second) => print_meeting(u64::from(*first), u64::from(*second), sink),
        Reply::Refused(refusal) => print_refusal(refusal, sink),
    }
}
