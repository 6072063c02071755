//! Answers that are read back from their texts.
use crate::texts::{heading, page};
use ded_model::answer::Answer;
use ded_model::fault::ParseFault;
use ded_print::print_answer;
use ded_readback::read_answer;
use std::alloc::Global;
use std::test::Fail;

/// The texts of answers over the columns `x`, `y` and `n text`.
const TEXTS: &[&str] = &[
    "answer 0\nend\n",
    "answer 1\n{ }\nend\n",
    "answer 1\n{ x <= 4 }\nend\n",
    "answer 1\n{ n != 'it''s' }\nend\n",
    "answer 2\n{ n = '', x - 2*y >= 1, 3*y < -7 }\n{ 0 < 0 }\nend\n",
    "answer 1\n{ 1267650600228229401496703205376*x + y = 1267650600228229401496703205377 }\nend\n",
];

/// Texts that no answer over these columns has.
const OTHER_TEXTS: &[&str] = &[
    "",
    "answer 1\n{ 2*x <= 8 }\nend\n",
    "answer 1\n{ x <= 04 }\nend\n",
    "answer 2\n{ x <= 4 }\nend\n",
    "answer 1\n{ x <= 4 }\n",
    "answer 1\n{ x <= 4 }\nend\n\n",
    "answer 1\n{ z <= 4 }\nend\n",
    "answer 1\n{ n <= 4 }\nend\n",
    "answer 1\n{ x <= 4, n = 'a' }\nend\n",
];

/// Whether that is printed of the answer.
fn is_printed(alloc: Global, answer: &Answer, bytes: &[u8]) -> Result<bool, Fail> {
    let mut sink = page(alloc)?;
    print_answer(answer, &mut sink)?;
    Ok(sink.contents() == bytes)
}

/// Whether the bytes are the text of an answer, which is what is printed of it.
fn is_answer(alloc: Global, bytes: &[u8]) -> Result<bool, Fail> {
    let heading = heading(alloc)?;
    match read_answer(alloc, &heading, bytes) {
        Ok(answer) => is_printed(alloc, &answer, bytes),
        Err(ParseFault::NotRead) => Ok(false),
        Err(ParseFault::Memory) => Err("no memory".into()),
    }
}

/// How many of the texts are those of answers.
fn count(alloc: Global, texts: &[&str]) -> Result<usize, Fail> {
    let mut count = 0usize;
    for text in texts {
        if is_answer(alloc, text.as_bytes())? {
            count = count.saturating_add(1);
        }
    }
    Ok(count)
}

/// Texts of answers are read and printed as the same, and others are refused.
#[test]
fn answers_are_read_back(rt: HostRuntime) -> Result<(), Fail> {
    assert_eq!(rt; count(rt.alloc(), TEXTS)?, TEXTS.len());
    assert_eq!(rt; count(rt.alloc(), OTHER_TEXTS)?, 0);
    Ok(())
}
