//! The words of the command line.
ghost use Rattle.std.specs.Prelude.{◌≤◌, IfOk, map};
ghost use Rattle.std.specs.String.{string_bytes};
ghost use Rattle.ded_kept.specs.Words.{AcceptsFile};

use ded_model::fault::ParseFault;
use ded_run::options_in;
use std::alloc::Global;

/// The most tuples that a relation holds, by words of which the first is the path of a file.
///
/// # Errors
/// `NotRead` where the words are no accepted list, otherwise out of memory.
pub fn limit_in(alloc: Global, words: &[String]) -> Result<u32, ParseFault>
    ensures accepted { IfOk result (AcceptsFile (map string_bytes words.now)) }
    ensures low { IfOk result (λ limit. 1 ≤ limit) }
    ensures high { IfOk result (λ limit. limit ≤ 1000000) }
{
    let Some((path, others)) = words.split_first() else {
        return Err(ParseFault::NotRead);
    };
    if path.as_str().is_empty() || path.as_str().starts_with('-') {
        return Err(ParseFault::NotRead);
    }
    let options = options_in(alloc, others)?;
    if options.size.is_some() {
        return Err(ParseFault::NotRead);
    }
    Ok(options.limit)
}
