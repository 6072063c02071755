//! Laws of ticks. Each is the contract of a function that does nothing.
ghost use Rattle.std.specs.Prelude.{◌*◌, ◌<◌, ◌≤◌, ℕ, ℤ, pos, ◌+ℤ◌, ◌-ℤ◌, ◌<ℤ◌, ◌≤ℤ◌, unsigned_abs};
ghost use Rattle.ded_ticks.specs.Steps.{clock_step, first_multiple, round_step};

/// The first multiple of a step is at least the number, and less than a step above it.
pub fn first()
    ensures from { (low : ℤ) (step : ℕ) → 0 < step → low ≤ℤ first_multiple low (pos step) }
    ensures least { (low : ℤ) (step : ℕ) → 0 < step → first_multiple low (pos step) <ℤ (low +ℤ pos step) }
{}

/// Eight steps are at least the extent.
pub fn reach()
    ensures numbers { (extent : ℕ) → extent ≤ 8 * round_step extent }
    ensures times { (den extent : ℕ) → extent ≤ 8 * clock_step den extent }
{}

/// Nine steps behind the first multiple is above the greatest value, so that nine ticks are all.
pub fn last()
    ensures { (low high : ℤ) (step : ℕ) → low <ℤ high → unsigned_abs (high -ℤ low) ≤ 8 * step
        → high <ℤ (first_multiple low (pos step) +ℤ pos (9 * step)) }
{}
