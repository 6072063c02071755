//! How answers are drawn.

use ded_figures::Look;
use ded_polygon::PlaneWindow;

/// How answers are drawn.
#[derive(Drop)]
pub struct Style {
    /// The columns that are drawn.
    pub look: Look,
    /// What is seen, where that is told.
    pub window: Option<PlaneWindow>,
    /// How wide the picture is, in units, 1 to 10,000.
    pub width: u32,
    /// Whether the first column has times, in minutes: they are marked as on a clock.
    pub has_clock: bool,
}
