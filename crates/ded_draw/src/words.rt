//! The words of the command line.
ghost use Rattle.std.specs.Prelude.{◌≡◌, ◌≢◌, [], ℕ, Option, Some, None, Err, IfOk, MatchOption, codes, map};
ghost use Rattle.std.specs.Prelude.{option_map};
ghost use Rattle.std.specs.String.{string_bytes};
ghost use Rattle.clap.specs.Words.{app_of, fault_of};
ghost use Rattle.clap.specs.Simple.{with_rule};
ghost use Rattle.ded_polygon.specs.Windows.{Frame};
ghost use Rattle.ded_run.specs.CommandLine.{option_rule};
ghost use Rattle.ded_draw.specs.CommandLine.{bare, drawing, value_of};
ghost use Rattle.ded_draw.specs.declared.words.DrawOptions.{DrawOptions};
ghost use Rattle.ded_draw.specs.Words.{AcceptedWords, WidthValue, WindowValue, cut_at_comma, look_of, time_first};
ghost use Rattle.ded_draw.specs.Words.{two_columns};

use clap::error::ErrorKind;
use clap::{Arg, ArgAction, Command};
use ded_axes::window_of;
use ded_drawing::Style;
use ded_figures::Look;
use ded_model::fault::ParseFault;
use ded_model::memory::NoMemory;
use ded_model::name::Name;
use ded_polygon::PlaneWindow;
use ded_run::{has_dashes, limit_of, number_of};
use std::alloc::Global;

/// What the words ask for.
#[derive(Drop)]
pub struct DrawOptions {
    /// The most tuples that a relation holds.
    pub limit: u32,
    /// How the answers are drawn.
    pub style: Style,
}

/// How wide a picture is where nothing is said, in units.
const DEFAULT_WIDTH: u32 = 800;

/// How wide a picture may be, in units.
const GREATEST_WIDTH: u32 = 10_000;

/// The values of the options, where the words have them.
#[derive(Clone, Copy)]
struct DrawValues<'a> {
    limit: Option<&'a str>,
    columns: Option<&'a str>,
    window: Option<&'a str>,
    size: Option<&'a str>,
    time: Option<&'a str>,
}

/// The options that the words give.
///
/// # Errors
/// `NotRead` only where the words are no accepted list, otherwise out of memory.
pub(crate) fn options_in(alloc: Global, words: &[String]) -> Result<DrawOptions, ParseFault>
    ensures accepted { IfOk result (λ options. AcceptedWords (map string_bytes words.now) options) }
    ensures bad { result ≡ Err ParseFault.NotRead →
        (options : DrawOptions) → AcceptedWords (map string_bytes words.now) options → ⊥ }
{
    if has_dashes(words) {
        return Err(ParseFault::NotRead);
    }
    let values = values_in(alloc, words)?;
    let Some(limit) = limit_of(values.limit) else {
        return Err(ParseFault::NotRead);
    };
    let Some(width) = width_of(values.size) else {
        return Err(ParseFault::NotRead);
    };
    let Some(window) = window_in(values.window) else {
        return Err(ParseFault::NotRead);
    };
    let Some(look) = look_of(alloc, values.columns, values.time)? else {
        return Err(ParseFault::NotRead);
    };
    Ok(DrawOptions {
        limit,
        style: Style {
            look,
            window,
            width,
            has_clock: values.time.is_some(),
        },
    })
}

/// The command line as `clap` reads it: five options that take one value each. There is no other option, and no
/// argument without a name.
fn command<'a>(alloc: Global) -> Result<Command<'a>, NoMemory>
    ensures { IfOk result (λ command. app_of command ≡ drawing) }
{
    let command = with_option(alloc, bare(alloc), "limit")?;
    let command = with_option(alloc, command, "columns")?;
    let command = with_option(alloc, command, "window")?;
    let command = with_option(alloc, command, "size")?;
    with_option(alloc, command, "time")
}

/// The command line without options.
fn bare<'a>(alloc: Global) -> Command<'a>
    ensures { app_of result ≡ bare }
{
    Command::new(alloc, "dedale_draw")
        .no_binary_name(true)
        .disable_help_flag(true)
}

/// The command with one option more, of this name, which takes one value.
///
/// # Errors
/// Out of memory.
fn with_option<'a>(
    alloc: Global,
    command: Command<'a>,
    name: &'a str,
) -> Result<Command<'a>, NoMemory>
    ensures { IfOk result (λ new. app_of new ≡ with_rule (app_of command.entry) (option_rule name.entry.now)) }
{
    command.arg(Arg::new(alloc, name).long(name).action(ArgAction::Set))
}

/// The values of the options, where the words have them. `NotRead` only where `clap` finds a fault in the words.
fn values_in<'a>(alloc: Global, words: &'a [String]) -> Result<DrawValues<'a>, ParseFault>
    ensures none { IfOk result (λ _. fault_of drawing (map string_bytes words.entry.now) ≡ []) }
    ensures limit { IfOk result (λ values. option_map (λ t. t.now) values.limit
        ≡ value_of (codes "limit") (map string_bytes words.entry.now)) }
    ensures columns { IfOk result (λ values. option_map (λ t. t.now) values.columns
        ≡ value_of (codes "columns") (map string_bytes words.entry.now)) }
    ensures window { IfOk result (λ values. option_map (λ t. t.now) values.window
        ≡ value_of (codes "window") (map string_bytes words.entry.now)) }
    ensures size { IfOk result (λ values. option_map (λ t. t.now) values.size
        ≡ value_of (codes "size") (map string_bytes words.entry.now)) }
    ensures time { IfOk result (λ values. option_map (λ t. t.now) values.time
        ≡ value_of (codes "time") (map string_bytes words.entry.now)) }
    ensures bad { result ≡ Err ParseFault.NotRead → fault_of drawing (map string_bytes words.entry.now) ≢ [] }
{
    match command(alloc)?.try_get_matches_from(words) {
        Ok(matches) => Ok(DrawValues {
            limit: matches.get_str("limit"),
            columns: matches.get_str("columns"),
            window: matches.get_str("window"),
            size: matches.get_str("size"),
            time: matches.get_str("time"),
        }),
        Err(error) if error.kind() == ErrorKind::OutOfMemory => Err(ParseFault::Memory),
        Err(_) => Err(ParseFault::NotRead),
    }
}

/// The width that the value gives, or the default one where there is no value; none where the value isn't one.
fn width_of(value: Option<&str>) -> Option<u32>
    ensures { MatchOption result
        ((width : ℕ) → WidthValue (option_map (λ t. t.now) value.entry) width → ⊥)
        (λ width. WidthValue (option_map (λ t. t.now) value.entry) width) }
{
    match value {
        Some(text) => number_of(text, GREATEST_WIDTH),
        None => Some(DEFAULT_WIDTH),
    }
}

/// The window that the value gives, where there is a value; none where the value isn't one.
fn window_in(value: Option<&str>) -> Option<Option<PlaneWindow>>
    ensures { MatchOption result
        ((window : Option Frame) → WindowValue (option_map (λ t. t.now) value.entry) window → ⊥)
        (λ window. WindowValue (option_map (λ t. t.now) value.entry) window) }
{
    match value {
        Some(text) => Some(Some(window_of(text.as_bytes())?)),
        None => Some(None),
    }
}

/// The columns that the values of `--columns` and `--time` give, where they give some.
///
/// # Errors
/// Out of memory.
fn look_of(
    alloc: Global,
    columns: Option<&str>,
    time: Option<&str>,
) -> Result<Option<Look>, NoMemory>
    ensures { IfOk result (λ look. look ≡ look_of (option_map (λ t. t.now) columns.entry)
        (option_map (λ t. t.now) time.entry)) }
{
    match (columns, time) {
        (None, None) => Ok(Some(Look::FirstTwo)),
        (None, Some(time)) => Ok(Some(Look::With(name_of(alloc, time.as_bytes())?))),
        (Some(columns), None) => two_columns(alloc, columns.as_bytes()),
        (Some(columns), Some(time)) => { time_first(alloc, time.as_bytes(), columns.as_bytes()) }
    }
}

/// The two columns in order, where there is a comma.
fn two_columns(alloc: Global, columns: &[u8]) -> Result<Option<Look>, NoMemory>
    ensures { IfOk result (λ look. look ≡ two_columns (cut_at_comma columns.now)) }
{
    match cut_at_comma(columns) {
        Some((first, second)) => Ok(Some(named(alloc, first, second)?)),
        None => Ok(None),
    }
}

/// The two columns, of which the one of times comes first, where there is a comma and one of them is that.
fn time_first(alloc: Global, time: &[u8], columns: &[u8]) -> Result<Option<Look>, NoMemory>
    ensures { IfOk result (λ look. look ≡ time_first time.now (cut_at_comma columns.now)) }
{
    match cut_at_comma(columns) {
        Some((first, second)) if first == time => Ok(Some(named(alloc, first, second)?)),
        Some((first, second)) if second == time => Ok(Some(named(alloc, second, first)?)),
        Some(_) | None => Ok(None),
    }
}

/// What stands before the first comma, and what stands behind it.
fn cut_at_comma(text: &[u8]) -> Option<(&[u8], &[u8])>
    ensures { option_map (λ pair. (pair.0.now, pair.1.now)) result ≡ cut_at_comma text.now }
{
    let mut place = 0;
    while place < text.len() {
        if text[place] == b',' {
            return Some((&text[..place], &text[place + 1..]));
        }
        place += 1;
    }
    None
}

/// The columns of these names.
fn named(alloc: Global, first: &[u8], second: &[u8]) -> Result<Look, NoMemory>
    ensures { IfOk result (λ look. look ≡ Look.Named first.now second.now) }
{
    Ok(Look::Named(name_of(alloc, first)?, name_of(alloc, second)?))
}

/// The bytes as a name.
fn name_of(alloc: Global, bytes: &[u8]) -> Result<Name, NoMemory>
    ensures { IfOk result (λ n. n ≡ bytes.now) }
{
    Ok(Name {
        bytes: bytes.to_vec(alloc)?,
    })
}
