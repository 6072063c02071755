//! Where in a piece the bytes so far end.
ghost use Rattle.std.specs.Prelude.{◌≡◌, ◌&&◌};
ghost use Rattle.ded_lex.specs.Machine.{turned, stays_blank, ends_blank};

use crate::byte::is_blank_byte;

/// Where the bytes since the last end leave the splitter.
#[derive(Clone, Copy, Debug, PartialEq, Eq)]
pub enum State {
    Plain,
    Dash,
    Quote,
    Comment,
}

/// The state after a byte, or none at the `;` that ends the piece.
pub fn turn(state: State, byte: u8) -> Option<State>
    ensures { result ≡ turned state byte }
{
    match state {
        State::Plain => match byte {
            b'\'' => Some(State::Quote),
            b'-' => Some(State::Dash),
            b';' => None,
            _ => Some(State::Plain),
        },
        State::Dash => match byte {
            b'\'' => Some(State::Quote),
            b'-' => Some(State::Comment),
            b';' => None,
            _ => Some(State::Plain),
        },
        State::Quote => match byte {
            b'\'' => Some(State::Plain),
            _ => Some(State::Quote),
        },
        State::Comment => match byte {
            b'\n' => Some(State::Plain),
            _ => Some(State::Comment),
        },
    }
}

/// Whether a piece that is blank so far is so with this byte too, where a dash waits for the next byte.
pub fn is_still_blank(blank: bool, state: State, byte: u8) -> bool
    ensures { result ≡ (blank && stays_blank state byte) }
{
    blank
        && match state {
            State::Plain => is_blank_byte(byte) || byte == b'-',
            State::Dash => byte == b'-',
            State::Quote => false,
            State::Comment => true,
        }
}

/// Whether a piece that is blank so far may end in this state.
pub fn may_end_blank(state: State) -> bool
    ensures { result ≡ ends_blank state }
{
    match state {
        State::Plain | State::Comment => true,
        State::Dash | State::Quote => false,
    }
}
