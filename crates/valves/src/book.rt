// What the valves hold: the clients' accounts, the plant's account, and how far each valve is open.
ghost use Rattle.std.specs.Prelude.{◌≡◌};
ghost use Rattle.valves.specs.Book.{read_account, read_opening};

#[derive(Clone, Copy)]
pub struct Book {
    pub accounts: [u32; 32],
    pub plant: u32,
    // of each valve, 0 to 1,000
    pub openings: [u16; 64],
}

impl Book {
    // What a client has, if there is such a client. A look-up of one line, as the next and others: what each looks
    // into is its record's own.
    pub(crate) fn account(&self, client: u8) -> Option<u32>
        ensures { result ≡ read_account self.now client }
    {
        self.accounts.get(usize::from(client)).copied()
    }

    // How far a valve is open, if there is such a valve.
    pub(crate) fn opening(&self, valve: u8) -> Option<u16>
        ensures { result ≡ read_opening self.now valve }
    {
        self.openings.get(usize::from(valve)).copied()
    }
}
