//! The theories of the atoms of generalized tuples.
use ded_linear::Linear;
use ded_order::Order;
use ded_theme::Theme;
use ded_theory::Both;

/// Rows over the rationals and text atoms over all finite byte strings.
pub type Atoms = Both<Linear, Theme>;

/// Order rows over the rationals and text atoms over all finite byte strings. It decides every conjunction.
pub type OrderAtoms = Both<Order, Theme>;
