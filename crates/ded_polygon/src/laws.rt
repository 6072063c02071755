//! What is true of windows.
ghost use Rattle.std.specs.Prelude.{◌≡◌, ◌++◌, false, List};
ghost use Rattle.ded_model.specs.Constraint.{LinearConstraint};
ghost use Rattle.ded_model.specs.Point.{same_slot};
ghost use Rattle.ded_polygon.specs.Closures.{AreBounded};
ghost use Rattle.ded_polygon.specs.Windows.{window_rows};

use crate::window::PlaneWindow;
use ded_model::slot::Slot;

/// Rows with the four rows of a window behind them are bounded.
pub fn windows(x: Slot, y: Slot, window: PlaneWindow)
    requires { same_slot x y ≡ false }
    ensures { (rows : List LinearConstraint) → AreBounded x y (rows ++ window_rows x y window) }
{
    let _ = window.sides();
}
