//! What is true of normal rows.
ghost use Rattle.std.specs.Prelude.{◌≡◌, ◌≢◌, ℤ, pos, ◌<◌, true};
ghost use Rattle.ded_model.specs.declared.slot.Slot.{Slot};
ghost use Rattle.ded_model.specs.Constraint.{LinearConstraint};
ghost use Rattle.ded_model.specs.Point.{Point};
ghost use Rattle.ded_model.specs.Coefs.{AreCoefs, coef_at};
ghost use Rattle.ded_model.specs.Row.{row_holds, row_mentions};
ghost use Rattle.ded_model.specs.Normal.{IsNormalRow, normal_row};
ghost use Rattle.ded_model.specs.Lines.{Line, In, row_lines, combination, lines_clash};
ghost use Rattle.ded_row.specs.Mixing.{BoundsAbove, BoundsBelow, mix_of};
ghost use Rattle.ded_row.specs.Multiples.{row_times};

/// A row and its normal row hold at the same points, mention the same slots and have the same lines, and the normal row
/// is in normal form.
pub fn normal_rows()
    ensures alike { (r : LinearConstraint) (p : Point) → 0 < p.den → row_holds (normal_row r) p ≡ row_holds r p }
    ensures mentions { (r : LinearConstraint) (s : Slot) → row_mentions (normal_row r) s ≡ row_mentions r s }
    ensures lines { (r : LinearConstraint) → AreCoefs r.coefs → row_lines (normal_row r) ≡ row_lines r }
    ensures normal { (r : LinearConstraint) → AreCoefs r.coefs → IsNormalRow (normal_row r) }
{}

/// A row and each multiple of it by a number that is not 0 have the same lines.
pub fn multiples()
    ensures { (r : LinearConstraint) (k : ℤ) → AreCoefs r.coefs → k ≢ pos 0 → row_lines (row_times k r) ≡ row_lines r }
{}

/// A combination of two rows holds wherever both rows do.
pub fn combinations()
    ensures { (s : Slot) (q r : LinearConstraint) (p : Point) → BoundsAbove q.op (coef_at q.coefs s)
        → BoundsBelow r.op (coef_at r.coefs s)
        → 0 < p.den → row_holds q p ≡ true → row_holds r p ≡ true → row_holds (mix_of s q r) p ≡ true }
{}

/// The combination of two rows at a slot is that of their lines, and two normal rows clash there where their lines do.
pub fn lines()
    ensures combination { (s : Slot) (q r : LinearConstraint) (l m : Line) → AreCoefs q.coefs → AreCoefs r.coefs
        → In l (row_lines q) → In m (row_lines r) → combination s q r ≡ combination s l m }
    ensures clash { (s : Slot) (q r : LinearConstraint) (l m : Line) → AreCoefs q.coefs → AreCoefs r.coefs
        → IsNormalRow q → IsNormalRow r
        → In l (row_lines q) → In m (row_lines r) → lines_clash s q r ≡ lines_clash s l m }
{}
