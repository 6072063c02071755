//! How the sides of pieces of one colour are drawn.
//!
//! A piece is a conjunction of rows over two slots; what is coloured are the points of any of the pieces. Between two
//! spots of a side that no border parts, [`stroke_between`] tells how the side is drawn: not at all where the pieces go
//! on across it, else solid where its points are in the pieces and dashed where they are not. It holds of each point
//! between the spots. [`PlanePiece::holds_near`] tells whether the points as near as one likes in a direction are in a
//! piece, and [`PlaneLimit::cut`] where the border of a limit crosses that of another one.
//!
//! [`stretches`] cuts a side there until no border parts it, and tells how each stretch is drawn. Pieces that have no
//! points near the side are left out first: that changes nothing (`proofs/Idle`). [`add_lines`] makes lines of
//! stretches, with neighbours that are drawn alike as one.
//!
//! All of it is exact: no point between is computed, as its level has the sign of that at one of the two spots.
#![tactic(auto)]

mod direction;
mod limit;
mod lines;
mod number;
mod parting;
mod piece;
mod stretch;

pub use direction::Direction;
pub use limit::{PlaneLimit, window_limits};
pub use lines::add_lines;
pub use parting::{Stretch, stretches};
pub use piece::{PlanePiece, rows_are_limits};
pub use stretch::{Stroke, stroke_between};
