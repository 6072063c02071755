//! Corners that are utmost, by two borders through them.
ghost use Rattle.std.specs.Prelude.{◌≡◌, pos, ◌≤ℤ◌, IsTrue, IfSome};
ghost use Rattle.ded_polygon.specs.Plane.{In, level, bend};
ghost use Rattle.ded_layers.specs.Indexed.{IsUtmost, Spans};

use ded_polygon::Corner;
use ded_strokes::PlaneLimit;

/// A corner of which it is known that no point of the half planes is farther out of another one. None where none is
/// known.
pub(crate) fn support(planes: &[PlaneLimit], corners: &[Corner], out: PlaneLimit) -> Option<Corner>
    ensures { IfSome result (λ c. IsUtmost planes.now out.plane c) }
{
    for corner in corners {
        if is_utmost(planes, *corner, out) {
            return Some(*corner);
        }
    }
    None
}

/// Whether two borders through the corner tell that no point of the half planes is farther out.
fn is_utmost(planes: &[PlaneLimit], corner: Corner, out: PlaneLimit) -> bool
    ensures { IsTrue result → IsUtmost planes.now out.plane corner }
{
    for first in planes {
        if 0 <= first.bend(out)
            && first.touches(corner)
            && is_between(planes, *first, corner, out)
        {
            return true;
        }
    }
    false
}

/// Whether the half plane's way out lies between that of the first one and that of another one whose border goes
/// through the corner.
fn is_between(planes: &[PlaneLimit], first: PlaneLimit, corner: Corner, out: PlaneLimit) -> bool
    requires among { In first planes.now }
    requires turned { pos 0 ≤ℤ bend first.plane out.plane }
    requires touches { level first.plane corner ≡ pos 0 }
    ensures { IsTrue result → IsUtmost planes.now out.plane corner }
{
    let _ = (corner.den, 0); // for its invariant
    for second in planes {
        if spans(first, *second, corner, out) {
            return true;
        }
    }
    false
}

/// Whether the border of the second half plane goes through the corner, and the way out of another one lies between
/// those out of the first one and out of it.
fn spans(first: PlaneLimit, second: PlaneLimit, corner: Corner, out: PlaneLimit) -> bool
    ensures { IsTrue result → Spans first.plane second.plane corner out.plane }
{
    if out.bend(second) < 0 || first.bend(second) <= 0 {
        return false;
    }
    second.touches(corner)
}
