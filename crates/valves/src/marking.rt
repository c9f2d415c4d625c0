// The mark of the book: FNV-1a over its numbers.
ghost use Rattle.std.specs.Prelude.{◌≡◌};
ghost use Rattle.digest.specs.Fnv.{fnv1a};
ghost use Rattle.valves.specs.Mark.{book_bytes};

use crate::book::Book;
use digest::fnv::{absorb_all, offset_basis};

impl Book {
    pub(crate) fn fnv1a(&self) -> u64
        ensures { result ≡ fnv1a (book_bytes self.now) }
    {
        let accounts = self.accounts.iter().fold(
            offset_basis(),
            |hash, units| absorb_all(hash, &units.to_be_bytes()),
        );
        let plant = absorb_all(accounts, &self.plant.to_be_bytes());
        self.openings.iter().fold(
            plant,
            |hash, opening| absorb_all(hash, &opening.to_be_bytes()),
        )
    }
}
