//! Whether bytes are what is printed of an answer.
ghost use Rattle.std.specs.Prelude.{◌≡◌, Some, IfOk, IfErr};
ghost use Rattle.std.specs.Str.{bytes_eq};
ghost use Rattle.ded_print.specs.Tuples.{answer_text};
ghost use Rattle.ded_model.specs.declared.fault.ParseFault.TheVariants.{Memory};
ghost use Rattle.ded_readback.specs.Texts.{text_bytes, text_faults};

use ded_io::{Failed, Sink};
use ded_model::answer::Answer;
use ded_model::fault::ParseFault;
use ded_print::print_answer;
use std::alloc::Global;

/// A sink that keeps all that it is given. It fails only where there is no memory.
#[derive(Drop)]
pub(crate) struct PrintedText {
    bytes: Vec<u8>,
    faults: u64,
}

impl Sink for PrintedText {
    ghost contents = { λ t. Some (text_bytes t) };

    ghost faults = { text_faults };

    fn write(&mut self, bytes: &[u8]) -> Result<usize, Failed> {
        if self.bytes.extend_from_slice(bytes).is_err() {
            self.faults = self.faults.saturating_add(1);
            return Err(Failed);
        }
        Ok(bytes.len())
    }
}

/// Whether the bytes are the text of the answer.
///
/// # Errors
/// Out of memory.
pub(crate) fn is_printed(alloc: Global, answer: &Answer, bytes: &[u8]) -> Result<bool, ParseFault>
    ensures same { IfOk result (λ b. b ≡ bytes_eq (answer_text answer.now.heading answer.now.tuples) bytes.now) }
    ensures memory { IfErr result (λ e. e ≡ Memory) }
{
    let mut text = PrintedText {
        bytes: Vec::new(alloc),
        faults: 0,
    };
    match print_answer(answer, &mut text) {
        Ok(()) => Ok(text.bytes.as_slice() == bytes),
        Err(_) => Err(ParseFault::Memory),
    }
}
