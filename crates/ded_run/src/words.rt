//! The words of the command line.
ghost use Rattle.std.specs.Prelude.{◌≡◌, ◌≢◌, [], ℕ, Option, Some, None, Err, IfOk, MatchOption, codes, map};
ghost use Rattle.std.specs.Prelude.{option_map};
ghost use Rattle.std.specs.String.{string_bytes};
ghost use Rattle.clap.specs.Words.{app_of, fault_of, first_of, matches_of};
ghost use Rattle.ded_run.specs.CommandLine.{dedale, has_dashes};
ghost use Rattle.ded_run.specs.declared.words.Options.{Options};
ghost use Rattle.ded_run.specs.Words.{AcceptedWords, IsNumber, LimitValue, SizeValue};

use clap::error::ErrorKind;
use clap::{Arg, ArgAction, Command};
use ded_model::fault::ParseFault;
use ded_model::limits;
use ded_model::memory::NoMemory;
use std::alloc::Global;

/// The words of the command line, without the program's name.
#[derive(Drop)]
pub struct Words {
    pub list: Vec<String>,
}

/// What the words ask for.
#[derive(Clone, Copy, Debug, PartialEq, Eq)]
pub struct Options {
    /// The most tuples that a relation holds.
    pub limit: u32,
    /// The size of the made script that stands for the input, where one does.
    pub size: Option<u32>,
}

const GREATEST_SIZE: u32 = 100;

const MOST_DIGITS: usize = 7;

/// The values of the two options, where the words have them.
#[derive(Clone, Copy)]
struct Values<'a> {
    limit: Option<&'a str>,
    size: Option<&'a str>,
}

/// The options that the words give.
///
/// # Errors
/// `NotRead` only where the words are no accepted list, otherwise out of memory.
pub fn options_in(alloc: Global, words: &[String]) -> Result<Options, ParseFault>
    ensures accepted { IfOk result (λ options. AcceptedWords (map string_bytes words.now) options) }
    ensures bad { result ≡ Err ParseFault.NotRead →
        (options : Options) → AcceptedWords (map string_bytes words.now) options → ⊥ }
{
    if has_dashes(words) {
        return Err(ParseFault::NotRead);
    }
    let values = values_in(alloc, words)?;
    let Some(limit) = limit_of(values.limit) else {
        return Err(ParseFault::NotRead);
    };
    let Some(size) = size_of(values.size) else {
        return Err(ParseFault::NotRead);
    };
    Ok(Options { limit, size })
}

/// Whether some word is `--`.
pub fn has_dashes(words: &[String]) -> bool
    ensures { result ≡ has_dashes (map string_bytes words.now) }
{
    for word in words {
        if word.as_str() == "--" {
            return true;
        }
    }
    false
}

/// The command line as `clap` reads it: `--limit` and `--make` take one value each. There is no other option, and no
/// argument without a name.
fn command<'a>(alloc: Global) -> Result<Command<'a>, NoMemory>
    ensures { IfOk result (λ command. app_of command ≡ dedale) }
{
    let limit = Arg::new(alloc, "limit")
        .long("limit")
        .action(ArgAction::Set);
    let size = Arg::new(alloc, "make").long("make").action(ArgAction::Set);
    Command::new(alloc, "dedale")
        .no_binary_name(true)
        .disable_help_flag(true)
        .arg(limit)?
        .arg(size)
}

/// The values of the two options, where the words have them. `NotRead` only where `clap` finds a fault in the words.
fn values_in<'a>(alloc: Global, words: &'a [String]) -> Result<Values<'a>, ParseFault>
    ensures none { IfOk result (λ _. fault_of dedale (map string_bytes words.entry.now) ≡ []) }
    ensures limit { IfOk result (λ values. option_map (λ t. t.now) values.limit
        ≡ first_of (codes "limit") (matches_of dedale (map string_bytes words.entry.now))) }
    ensures size { IfOk result (λ values. option_map (λ t. t.now) values.size
        ≡ first_of (codes "make") (matches_of dedale (map string_bytes words.entry.now))) }
    ensures bad { result ≡ Err ParseFault.NotRead → fault_of dedale (map string_bytes words.entry.now) ≢ [] }
{
    match command(alloc)?.try_get_matches_from(words) {
        Ok(matches) => Ok(Values {
            limit: matches.get_str("limit"),
            size: matches.get_str("make"),
        }),
        Err(error) if error.kind() == ErrorKind::OutOfMemory => Err(ParseFault::Memory),
        Err(_) => Err(ParseFault::NotRead),
    }
}

/// The limit that the value gives, or the default one where there is no value; none where the value isn't one.
pub fn limit_of(value: Option<&str>) -> Option<u32>
    ensures { MatchOption result
        ((limit : ℕ) → LimitValue (option_map (λ t. t.now) value.entry) limit → ⊥)
        (λ limit. LimitValue (option_map (λ t. t.now) value.entry) limit) }
{
    match value {
        Some(text) => number_of(text, limits::TUPLES),
        None => Some(limits::DEFAULT_TUPLES),
    }
}

/// The size that the value gives, where there is a value; none where the value isn't one.
fn size_of(value: Option<&str>) -> Option<Option<u32>>
    ensures { MatchOption result
        ((size : Option ℕ) → SizeValue (option_map (λ t. t.now) value.entry) size → ⊥)
        (λ size. SizeValue (option_map (λ t. t.now) value.entry) size) }
{
    match value {
        Some(text) => Some(Some(number_of(text, GREATEST_SIZE)?)),
        None => Some(None),
    }
}

/// The number of 1 to 7 digits, from 1 to the greatest; none where the value is no such number.
pub fn number_of(value: &str, greatest: u32) -> Option<u32>
    ensures { MatchOption result
        ((number : ℕ) → IsNumber greatest value.now number → ⊥)
        (λ number. IsNumber greatest value.now number) }
{
    if value.len() > MOST_DIGITS || value.as_bytes().first() == Some(&b'+') {
        return None;
    }
    match value.parse::<u32>() {
        Ok(number) if 1 <= number && number <= greatest => Some(number),
        _ => None,
    }
}
