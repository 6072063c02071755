//! The corners of a conjunction of rows over two slots, as pictures need them.
//!
//! [`corners`] gives exactly the points of the closure at which two rows that are not parallel are equalities, each
//! once; the closure is where each row with `<` read as `<=` holds. Where the rows are bounded, that is, where each
//! direction leads out of one of them, the corners go around counterclockwise: each shares a row that is an equality
//! with the next, and all others lie strictly to the left of the way between them. The closure is then exactly what
//! lies to the left of all these ways or on them, where there are three corners or more; it lies on the way between
//! two, is one alone, and where there is no corner, it is empty. [`cut`] adds the four rows of a [`PlaneWindow`], which
//! bound any rows (the law [`windows`]).
//!
//! All of it is exact: a row whose numbers are beyond 2 ^ 31 and 2 ^ 62 is refused as too wide before anything is
//! computed, and within them no product is longer than 127 binary digits. The closure of rows that hold nowhere may
//! have corners, as that of `x < 0, x > 0` beside a window, and rows that are not bounded may hold and have none:
//! whether rows hold somewhere is a verdict's to tell.
//!
//! The crate stands on [`ded_num`] and on the rows of [`ded_model`]. Each row is a half plane, an equality two. A
//! vertex is where two borders cross inside of all half planes; an edge leads from it along the border that turns
//! furthest to the right, to the first half plane that this leaves. No two edges end at one vertex, and edges that lead
//! around pass each vertex, since one that they do not pass would lie in a triangle of others: so following the edges
//! puts the vertices in order (`proofs/Leaving`, `Edges`, `Around`).
#![tactic(auto)]

mod arranging;
mod corner;
mod laws;
mod number;
mod polygon;
mod reading;
mod side;
mod vertices;
mod window;

pub use corner::Corner;
pub use laws::windows;
pub use polygon::{corners, cut};
pub use reading::mention_only;
pub use window::PlaneWindow;
