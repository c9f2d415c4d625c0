// The valves with what always holds of them.
ghost use Rattle.std.specs.Prelude.{◌≡◌, ℕ, ◌+◌, ◌≤◌, length, sum, slice_index};

use crate::book::Book;

#[derive(Clone, Copy)]
pub struct Valves {
    pub(crate) book: Book,
    ghost long: { length book.accounts ≡ 32 },
    // no unit is made or lost
    ghost whole: { sum book.accounts + book.plant ≡ 320000 },
    // no valve is more than wide open
    ghost within: { (valve : ℕ) → slice_index book.openings valve ≤ 1000 },
}
