//! The axes of a picture: where points stand in it, which window it shows, and how high it is.
//!
//! [`place`] says where a corner stands in a picture of a window, in whole hundredths of a unit; [`window_around`] is
//! the default window, a little more than all corners; [`window_of`] the one that a text spells; and [`height_of`] the
//! height at which both axes have the same scale. `specs/Places.antt`, `Around.antt`, `WindowReading.antt` and
//! `Heights.antt` say exactly which these are. The [`laws`] say that a place is within one half of a hundredth of where
//! the corner is, and that the default window has each corner in it.
//!
//! All of it is exact and total: products that may be too long are divided by halves of a factor. The crate stands on
//! `ded_polygon` for corners and windows, on `ded_svg` for points of a picture, and on `ded_num`.
#![tactic(auto)]

mod around;
mod height;
pub mod laws;
mod number;
mod parts;
mod placing;
mod power;
mod reading;
mod span;

pub use around::window_around;
pub use height::height_of;
pub use parts::portion;
pub use placing::place;
pub use reading::window_of;
