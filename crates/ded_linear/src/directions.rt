//! Rows over two slots, in the order of the directions of their coefficients.
//!
//! In the plane, a row that others imply follows from the two that are next to it, one on either side, as long as none
//! of these is superfluous itself. So they are the first to be asked, and found by halving. A row that the two beside
//! it make superfluous isn't among them, though it may be kept elsewhere. Nothing is promised of which rows are found:
//! what they show is checked.
ghost use Rattle.std.specs.Prelude.{◌<◌, ◌≤◌, length, IfSome};

use ded_model::memory::NoMemory;
use ded_model::row::Row;
use ded_model::slot::Slot;
use ded_num::gcd;
use std::alloc::Global;

/// From where on weights are divided by what divides them all: smaller ones seldom make products that are too long, and
/// a divisor takes time to find.
const SHORTENED_FROM: i128 = 1 << 63;

/// The coefficients of two slots. Products of two of these numbers always fit.
#[derive(Clone, Copy)]
struct CoefPair {
    x: i64,
    y: i64,
}

impl CoefPair {
    /// The direction of a row that mentions no other slots than these two. None of another row, or where a coefficient
    /// is too long.
    fn of(row: &Row, slots: (Slot, Slot)) -> Option<CoefPair> {
        let (x, y) = match row.coefs.list() {
            [(slot, a)] if slot.is_same(slots.0) => (*a, 0),
            [(slot, a)] if slot.is_same(slots.1) => (0, *a),
            [(first, a), (second, b)] if first.is_same(slots.0) && second.is_same(slots.1) => {
                (*a, *b)
            }
            _ => return None,
        };
        Some(CoefPair {
            x: i64::try_from(x).ok()?,
            y: i64::try_from(y).ok()?,
        })
    }

    /// The opposite direction.
    fn opposite(self) -> CoefPair {
        CoefPair {
            x: self.x.wrapping_neg(),
            y: self.y.wrapping_neg(),
        }
    }

    /// The cross product: above 0 where the other direction lies on the left, by less than half a turn.
    fn cross(self, other: CoefPair) -> i128 {
        let left = i128::from(self.x).wrapping_mul(i128::from(other.y));
        let right = i128::from(self.y).wrapping_mul(i128::from(other.x));
        left.wrapping_sub(right)
    }

    /// Whether it lies in the second half of the turn that goes from the first slot's direction to that of the second
    /// one, and on.
    fn is_late(self) -> bool {
        self.y < 0 || (self.y == 0 && self.x < 0)
    }

    /// Whether it is the other direction or comes before it in that turn.
    fn is_at_most(self, other: CoefPair) -> bool {
        if self.is_late() == other.is_late() {
            self.cross(other) >= 0
        } else {
            other.is_late()
        }
    }

    /// Whether it is the other direction.
    fn is_same(self, other: CoefPair) -> bool {
        self.is_late() == other.is_late() && self.cross(other) == 0
    }

    /// A measure of its length: twice that of a direction that is twice as long.
    fn length(self) -> i128 {
        let x = i128::from(self.x).saturating_abs();
        x.saturating_add(i128::from(self.y).saturating_abs())
    }
}

/// What is known of a row over the two slots.
#[derive(Clone, Copy)]
struct Border {
    direction: CoefPair,
    constant: i128,
    /// The place of the row among those that are kept.
    place: usize,
}

/// Two rows, and the numbers by which these two and a third one come to a row without slots.
#[derive(Clone, Copy)]
pub(crate) struct Neighbours {
    pub first: usize,
    pub second: usize,
    pub numbers: [i128; 3],
}

/// Of kept rows over two slots those that the two beside them don't make superfluous, in the order of their directions.
#[derive(Drop)]
pub(crate) struct Directions {
    slots: Option<(Slot, Slot)>,
    borders: Vec<Border>,
    is_whole: bool,
}

impl Directions {
    /// No rows, of the slots of the first of these rows that is over two. It does not allocate.
    pub fn new(alloc: Global, rows: &[Row]) -> Directions {
        Directions {
            slots: two_slots(rows),
            borders: Vec::new(alloc),
            is_whole: true,
        }
    }

    /// Enters a row that stands at the place, in place of one of the same direction, and leaves out those that it makes
    /// superfluous. It doesn't enter a row over other slots or with long coefficients.
    ///
    /// # Errors
    /// Out of memory.
    pub fn enter(&mut self, row: &Row, place: usize) -> Result<(), NoMemory> {
        let Some(direction) = self.direction_of(row) else {
            self.is_whole = false;
            return Ok(());
        };
        let at = self.put(Border {
            direction,
            constant: row.constant,
            place,
        })?;
        let at = self.clear_before(at);
        self.clear_behind(at);
        Ok(())
    }

    /// Whether all rows were entered, so that no others than the two beside a row can imply it, as long as there is a
    /// point where they hold.
    pub fn is_whole(&self) -> bool {
        self.is_whole
    }

    /// The rows on the two sides of the direction opposite to that of the row, where they and the row span the plane.
    /// They are found among so many.
    pub fn around(&self, row: &Row, count: usize) -> Option<Neighbours>
        ensures { IfSome result (λ n. (n.first < count) × (n.second < count)) }
    {
        let own = self.direction_of(row)?;
        let rank = self.rank(own.opposite());
        let first = self.borders.get(self.before(rank))?;
        let second = self.borders.get(self.within(rank))?;
        if first.place >= count || second.place >= count {
            return None;
        }
        Some(Neighbours {
            first: first.place,
            second: second.place,
            numbers: shortened(weights(first.direction, second.direction, own)?),
        })
    }

    /// The direction of the row, where it is over the two slots.
    fn direction_of(&self, row: &Row) -> Option<CoefPair> {
        CoefPair::of(row, self.slots?)
    }

    /// How many of the rows have this direction or one before it.
    fn rank(&self, direction: CoefPair) -> usize
        ensures { result ≤ length self.now.borders.items }
    {
        self.borders
            .partition_point(|border| border.direction.is_at_most(direction))
    }

    /// Puts the row where its direction comes, in place of one of the same direction. Gives where that is.
    fn put(&mut self, border: Border) -> Result<usize, NoMemory> {
        let rank = self.rank(border.direction);
        if rank > 0 && self.borders[rank - 1].direction.is_same(border.direction) {
            self.borders[rank - 1] = border;
            return Ok(rank - 1);
        }
        self.borders.insert(rank, border)?;
        Ok(rank)
    }

    /// Leaves out superfluous rows before that at the place, the next one first. Gives its place then.
    fn clear_before(&mut self, place: usize) -> usize {
        let mut at = place;
        for _ in 0..self.borders.len() {
            let next = self.before(at);
            if !self.is_superfluous(next) {
                return at;
            }
            at = self.leave_out(next, at);
        }
        at
    }

    /// Leaves out superfluous rows behind that at the place, the next one first.
    fn clear_behind(&mut self, place: usize) {
        let mut at = place;
        for _ in 0..self.borders.len() {
            let next = self.within(at.saturating_add(1));
            if !self.is_superfluous(next) {
                return;
            }
            at = self.leave_out(next, at);
        }
    }

    /// Leaves out the row at the place. Gives where the other one stands then.
    fn leave_out(&mut self, place: usize, other: usize) -> usize {
        if place < self.borders.len() {
            self.borders.remove(place);
        }
        if place < other { other - 1 } else { other }
    }

    /// The place before the place, all around.
    fn before(&self, place: usize) -> usize {
        if place > 0 {
            place - 1
        } else {
            self.borders.len().saturating_sub(1)
        }
    }

    /// The place, or the first one for that behind the last.
    fn within(&self, place: usize) -> usize {
        if place < self.borders.len() { place } else { 0 }
    }

    /// Whether the row at the place lies beyond where the two beside it meet.
    fn is_superfluous(&self, place: usize) -> bool {
        let first = self.borders.get(self.before(place));
        let second = self.borders.get(self.within(place.saturating_add(1)));
        match (first, self.borders.get(place), second) {
            (Some(first), Some(middle), Some(second)) => {
                self.borders.len() > 2 && lies_beyond(middle, first, second) == Some(true)
            }
            _ => false,
        }
    }
}

/// The slots of the first row that mentions two.
fn two_slots(rows: &[Row]) -> Option<(Slot, Slot)> {
    for row in rows {
        if let [(first, _), (second, _)] = row.coefs.list() {
            return Some((*first, *second));
        }
    }
    None
}

/// The numbers by which the three directions come to nothing, where none is below 0. The second one counts for nothing
/// where the first and the third one are opposite.
fn weights(first: CoefPair, second: CoefPair, third: CoefPair) -> Option<[i128; 3]> {
    if first.is_same(third.opposite()) {
        return Some([third.length(), 0, first.length()]);
    }
    let numbers = [second.cross(third), third.cross(first), first.cross(second)];
    if numbers[0] >= 0 && numbers[1] >= 0 && numbers[2] > 0 {
        Some(numbers)
    } else {
        None
    }
}

/// Long numbers divided by what divides them all.
fn shortened(numbers: [i128; 3]) -> [i128; 3] {
    let [first, second, third] = numbers;
    if first < SHORTENED_FROM && second < SHORTENED_FROM && third < SHORTENED_FROM {
        return numbers;
    }
    if first < 0 || second < 0 || third < 0 {
        return numbers;
    }
    let by = gcd(gcd(first, second), third);
    if by > 1 {
        [first / by, second / by, third / by]
    } else {
        numbers
    }
}

/// Whether the border lies beyond the point where the others meet, on the two sides of its direction. None where it
/// isn't between them, or a number gets too long.
fn lies_beyond(border: &Border, first: &Border, second: &Border) -> Option<bool> {
    let numbers = weights(
        first.direction,
        second.direction,
        border.direction.opposite(),
    )?;
    let left = numbers[0].checked_mul(first.constant)?;
    let right = numbers[1].checked_mul(second.constant)?;
    let own = numbers[2].checked_mul(border.constant)?;
    Some(own < left.checked_add(right)?)
}
