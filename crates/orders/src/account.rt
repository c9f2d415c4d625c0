// How many orders there were, and what became of them. Counts stay at their largest.
ghost use Rattle.std.specs.Prelude.{◌≡◌};
ghost use Rattle.orders.specs.Account.{raised, counted};

use crate::outcome::Outcome;
use std::fmt;

#[derive(Clone, Copy, Default)]
pub struct Account {
    pub orders: u64,
    pub applied: u64,
    pub passed: u64,
    pub bad: u64,
}

impl Account {
    pub(crate) fn count(&mut self, outcome: Outcome)
        ensures { self.new ≡ counted self.old outcome }
    {
        self.orders = self.orders.saturating_add(1);
        match outcome {
            Outcome::Answered(_) => self.applied = self.applied.saturating_add(1),
            Outcome::PassedOver(_) => self.passed = self.passed.saturating_add(1),
        }
    }

    pub(crate) fn count_bad(&mut self)
        ensures { self.new ≡ record { orders = self.old.orders; applied = self.old.applied; passed = self.old.passed; bad = raised self.old.bad } }
    {
        self.bad = self.bad.saturating_add(1);
    }
}

impl fmt::Display for Account {
    fn fmt<W: fmt::Write>(&self, f: &mut fmt::Formatter<W>) -> fmt::Result {
        writeln!(f, "orders: {}", self.orders)?;
        writeln!(f, "applied: {}", self.applied)?;
        writeln!(f, "passed over: {}", self.passed)?;
        write!(f, "bad lines: {}", self.bad)
    }
}
