//! What is true of shapes.
ghost use Rattle.std.specs.Prelude.{◌≡◌, ℕ, ◌<◌, ◌++◌, Bool, false, IsTrue, List, length};
ghost use Rattle.ded_model.specs.declared.slot.Slot.{Slot};
ghost use Rattle.ded_model.specs.Constraint.{LinearConstraint};
ghost use Rattle.ded_model.specs.Point.{Point, IsPoint, same_slot};
ghost use Rattle.ded_polygon.specs.Plane.{Spot};
ghost use Rattle.ded_polygon.specs.Closures.{IsInClosure, MentionOnly};
ghost use Rattle.ded_polygon.specs.Corners.{AreCorners};
ghost use Rattle.ded_polygon.specs.Windows.{Frame, IsFrame, window_rows, window_planes};
ghost use Rattle.ded_polygon.specs.Lists.{spot_in};
ghost use Rattle.ded_polygon.specs.Vertices.{LiesIn};
ghost use Rattle.ded_shapes.specs.Projections.{AreProjected};

/// Rows have a corner within a window exactly where a point of their closure lies in it. So a tuple that holds
/// somewhere within the window is drawn, and each of these corners lies in the half planes of the window.
pub fn shapes()
    ensures drawn { (x y : Slot) → same_slot x y ≡ false → (rows : List LinearConstraint) → MentionOnly x y rows
        → (w : Frame) → IsFrame w
        → (cs : List Spot) → AreCorners x y (rows ++ window_rows x y w) cs → (p : Point) → IsPoint p
        → IsInClosure (rows ++ window_rows x y w) p → 0 < length cs }
    ensures tuples { (x y : Slot) → same_slot x y ≡ false → (test : Point → Bool) (rows : List LinearConstraint)
        → AreProjected x y test rows → (w : Frame) → IsFrame w
        → (cs : List Spot) → AreCorners x y (rows ++ window_rows x y w) cs → (p : Point) → IsPoint p → IsTrue (test p)
        → IsInClosure (window_rows x y w) p → 0 < length cs }
    ensures corners { (x y : Slot) → same_slot x y ≡ false → (rows : List LinearConstraint) (w : Frame) (cs : List Spot)
        → AreCorners x y (rows ++ window_rows x y w) cs
        → (k : ℕ) → k < length cs → LiesIn (window_planes w) (spot_in cs k) }
    ensures within { (x y : Slot) (rows : List LinearConstraint) (cs : List Spot) → AreCorners x y rows cs
        → 0 < length cs → (p : Point) × IsPoint p × IsInClosure rows p }
{}
