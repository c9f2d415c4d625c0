// The valves as an application.
ghost use Rattle.std.specs.Prelude.{◌≡◌};
ghost use Rattle.valves.specs.Valves.{new_valves, after, answer, mark_of, account_at, plant_of, opening_at};

use crate::book::Book;
use crate::order::order_of;
use crate::state::Valves;
use application::codes::answer_code;
use application::interface::Application;

impl Valves {
    pub fn new() -> Valves
        ensures { result ≡ new_valves }
    {
        Valves {
            book: Book {
                accounts: [10_000; 32],
                plant: 0,
                openings: [0; 64],
            },
        }
    }

    // What a client has, if there is such a client.
    pub fn account(&self, client: u8) -> Option<u32>
        ensures { result ≡ account_at self.now client }
    {
        self.book.account(client)
    }

    // What the plant has.
    pub fn plant(&self) -> u32
        ensures { result ≡ plant_of self.now }
    {
        self.book.plant
    }

    // How far a valve is open, if there is such a valve.
    pub fn opening(&self, valve: u8) -> Option<u16>
        ensures { result ≡ opening_at self.now valve }
    {
        self.book.opening(valve)
    }
}

impl Application for Valves {
    ghost next = { after };

    ghost code = { answer };

    ghost marked = { mark_of };

    fn apply(&mut self, client: u8, timestamp: u32, payload: u64) -> u8 {
        answer_code(self.book.carry_out(client, order_of(payload)))
    }

    fn mark(&self) -> u64 {
        self.book.fnv1a()
    }
}
