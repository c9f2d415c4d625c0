// How the book changes.
ghost use Rattle.std.specs.Prelude.{◌≡◌, ◌+◌, ◌≤◌, sum};
ghost use Rattle.application.specs.Codes.{answer_code};
ghost use Rattle.valves.specs.Book.{code_of, code_of_open, code_of_pay, opened, paid, carried_out, if_done};

use crate::book::Book;
use crate::order::ValveOrder;
use application::codes::Reject;

const WIDE_OPEN: u16 = 1000;

impl Book {
    // Opens a valve; the client pays the change to the plant. What the accounts add up to is a premise of these
    // three, and the invariant of the valves: there it is restored once, after the whole order. By index: after a
    // `get_mut` of an array in a field nothing is known of its elements.
    fn open(&mut self, client: u8, valve: u8, opening: u16) -> Result<(), Reject>
        requires { sum self.old.accounts + self.old.plant ≤ 320000 }
        ensures value { answer_code result ≡ code_of_open self.old client valve opening }
        ensures after { self.new ≡ if_done (answer_code result) (opened self.old client valve opening) self.old }
    {
        let before = self.opening(valve).ok_or(Reject::BadPlace)?;
        let balance = self.account(client).ok_or(Reject::BadPlace)?;
        if opening > WIDE_OPEN {
            return Err(Reject::BadValue);
        }
        let price = u32::from(before.abs_diff(opening));
        let left = balance.checked_sub(price).ok_or(Reject::BadAmount)?;
        self.accounts[usize::from(client)] = left;
        self.plant += price;
        self.openings[usize::from(valve)] = opening;
        Ok(())
    }

    // Pays another client.
    fn pay(&mut self, client: u8, to: u8, units: u32) -> Result<(), Reject>
        requires { sum self.old.accounts + self.old.plant ≤ 320000 }
        ensures value { answer_code result ≡ code_of_pay self.old client to units }
        ensures after { self.new ≡ if_done (answer_code result) (paid self.old client to units) self.old }
    {
        let balance = self.account(client).ok_or(Reject::BadPlace)?;
        let received = self.account(to).ok_or(Reject::BadPlace)?;
        if to == client {
            return Err(Reject::BadPlace);
        }
        let left = balance.checked_sub(units).ok_or(Reject::BadAmount)?;
        self.accounts[usize::from(client)] = left;
        self.accounts[usize::from(to)] = received + units;
        Ok(())
    }

    // Carries out an order, or answers why not.
    pub(crate) fn carry_out(&mut self, client: u8, order: Option<ValveOrder>) -> Result<(), Reject>
        requires { sum self.old.accounts + self.old.plant ≤ 320000 }
        ensures value { answer_code result ≡ code_of self.old client order }
        ensures after { self.new ≡ carried_out self.old client order }
    {
        match order.ok_or(Reject::Unknown)? {
            ValveOrder::Open { valve, opening } => self.open(client, valve, opening),
            ValveOrder::Pay { to, units } => self.pay(client, to, units),
        }
    }
}
