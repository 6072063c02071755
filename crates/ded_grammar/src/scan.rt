//! Whether terminals spell a formula.
ghost use Rattle.std.specs.Prelude.{◌≡◌, ◌<◌, ◌^◌, Option, Some, None, IsTrue, ◌↔◌};
ghost use Rattle.ded_grammar.specs.Trees.{Whole, spell};
ghost use Rattle.ded_grammar.specs.Forms.{terminal_form, terminal_forms};
ghost use Rattle.ded_grammar.specs.Scanning.{stepped, scan};

use crate::terminal::Terminal;

/// What stands before a place in a formula.
#[derive(Clone, Copy, PartialEq, Eq, Debug)]
pub enum Spot {
    /// Nothing: a unit is to come.
    Start,
    /// A quantifier: its body is to come.
    Within,
    /// A unit.
    After,
}

/// What stands before the place behind the terminal, and how many parentheses are open there; none where no formula has
/// the terminal at such a spot.
fn step(spot: Spot, opened: u64, terminal: &Terminal) -> Option<(Spot, u64)>
    requires { opened < 2 ^ 63 }
    ensures { result ≡ stepped spot opened (terminal_form terminal.now) }
{
    match spot {
        Spot::Start => {
            match terminal {
                Terminal::Not => Some((Spot::Start, opened)),
                Terminal::Open => Some((Spot::Start, opened + 1)),
                Terminal::Bind(_, _) => Some((Spot::Within, opened)),
                Terminal::Atom(_) => Some((Spot::After, opened)),
                Terminal::And | Terminal::Or | Terminal::Implies | Terminal::Close => None,
            }
        }
        Spot::Within => {
            match terminal {
                Terminal::Open => Some((Spot::Start, opened + 1)),
                Terminal::Bind(_, _) => Some((Spot::Within, opened)),
                _ => None,
            }
        }
        Spot::After => {
            match terminal {
                Terminal::And | Terminal::Or | Terminal::Implies => Some((Spot::Start, opened)),
                Terminal::Close => {
                    if opened == 0 {
                        return None;
                    }
                    Some((Spot::After, opened - 1))
                }
                _ => None,
            }
        }
    }
}

/// Whether the terminals may follow one another from the start of a formula to its end, where no parenthesis is open.
fn scanned(terminals: &[Terminal]) -> bool
    ensures { result ≡ scan Spot.Start 0 (terminal_forms terminals.now) }
{
    let mut spot = Spot::Start;
    let mut opened = 0;
    for terminal in terminals {
        let Some((next, count)) = step(spot, opened, terminal) else {
            return false;
        };
        spot = next;
        opened = count;
    }
    spot == Spot::After && opened == 0
}

/// Whether the terminals spell a formula, whatever its nesting.
pub fn is_formula(terminals: &[Terminal]) -> bool
    ensures { IsTrue result ↔ ((tree : Whole) × (spell tree ≡ terminal_forms terminals.now)) }
{
    scanned(terminals)
}
