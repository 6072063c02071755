//! Vertices in the order in which edges lead around.
ghost use Rattle.std.specs.Prelude.{◌<◌, ◌≤◌, ◌-◌, ◌↔◌, ℕ, IsTrue, MatchOption, length};
ghost use Rattle.ded_polygon.specs.Vertices.{IsEdge, IsStop, IsEnclosed};
ghost use Rattle.ded_polygon.specs.Lists.{spot_in, AreAllVertices, AreJoined};

use crate::corner::Corner;
use crate::side::PlaneSide;

/// Puts each vertex behind the one from which an edge leads to it.
pub(crate) fn arrange(corners: &mut Vec<Corner>, sides: &[PlaneSide])
    requires all { AreAllVertices sides.now corners.old.items }
    ensures all { AreAllVertices sides.now corners.new.items }
    ensures joined { IsEnclosed sides.now → AreJoined sides.now corners.new.items }
{
    for place in 1..corners.len() {
        let Some(next) = next_of(corners, place, sides) else {
            return;
        };
        corners.swap(place, next);
    }
}

/// The first place from the given one on to which an edge leads from the place before that.
fn next_of(corners: &[Corner], place: usize, sides: &[PlaneSide]) -> Option<usize>
    requires before { 0 < place }
    requires inside { place < length corners.now }
    ensures { MatchOption result
        ((k : ℕ) → place ≤ k → k < length corners.now
        → IsEdge sides.now (spot_in corners.now (place - 1)) (spot_in corners.now k) → ⊥)
        (λ next. (place ≤ next) × (next < length corners.now)
        × IsEdge sides.now (spot_in corners.now (place - 1)) (spot_in corners.now next)) }
{
    let last = corners[place - 1];
    for next in place..corners.len() {
        if is_edge(sides, last, corners[next]) {
            return Some(next);
        }
    }
    None
}

/// Whether an edge leads from the one corner to the other.
fn is_edge(sides: &[PlaneSide], from: Corner, to: Corner) -> bool
    ensures edge { IsTrue result → IsEdge sides.now from to }
    ensures none { IsEdge sides.now from to → IsTrue result }
{
    for side in sides {
        if side.touches(from) && side.touches(to) && stops(sides, *side, from, to) {
            return true;
        }
    }
    false
}

/// Whether the way along the border of a half plane, through both corners, leads out of another one at the second
/// corner, and not before.
fn stops(sides: &[PlaneSide], side: PlaneSide, from: Corner, to: Corner) -> bool
    ensures { IsTrue result ↔ IsStop sides.now side from to }
{
    for stop in sides {
        if stop.surrounds(from) && stop.touches(to) && side.leads_out_of(*stop) {
            return true;
        }
    }
    false
}
