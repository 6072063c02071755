//! Laws of axes. Each is the contract of a function that does nothing.
ghost use Rattle.std.specs.Prelude.{◌≡◌, ℕ, pos, ◌<ℤ◌, true, List};
ghost use Rattle.ded_axes.specs.Around.{counts, frame_around};
ghost use Rattle.ded_axes.specs.Places.{extent_x, extent_y, IsNearPortion, offset_x, offset_y, place};
ghost use Rattle.ded_polygon.specs.Plane.{In, Spot};
ghost use Rattle.ded_polygon.specs.Vertices.{LiesIn};
ghost use Rattle.ded_polygon.specs.Windows.{Frame, IsFrame, window_planes};

/// Where a spot of a window stands is within one half of a hundredth of a unit of its place, both ways.
pub fn places()
    ensures across { (w : Frame) (width height : ℕ) (c : Spot) → IsFrame w → pos 0 <ℤ c.den → LiesIn (window_planes w) c
        → IsNearPortion (offset_x w c) (extent_x w c) width (place w width height c).x.hundredths }
    ensures down { (w : Frame) (width height : ℕ) (c : Spot) → IsFrame w → pos 0 <ℤ c.den → LiesIn (window_planes w) c
        → IsNearPortion (offset_y w c) (extent_y w c) height (place w width height c).y.hundredths }
{}

/// Each corner that counts lies in the default window.
pub fn contains()
    ensures { (cs : List Spot) (c : Spot) → In c cs → counts (pos 1) c ≡ true → pos 0 <ℤ c.den
        → LiesIn (window_planes (frame_around cs)) c }
{}
