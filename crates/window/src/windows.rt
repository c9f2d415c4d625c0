// The windows of the 32 clients.
ghost use Rattle.std.specs.Prelude.{◌≡◌};
ghost use Rattle.window.specs.Clients.{all_fresh, window_at, admits, marks};

use crate::window::Window;
use application::interface::LAST_CLIENT;

#[derive(Clone, Copy)]
pub struct Windows {
    // of client 0 first
    pub(crate) clients: [Window; 32],
}

impl Windows {
    // Nothing was applied of any client.
    pub fn new() -> Windows
        ensures { result ≡ all_fresh }
    {
        Windows {
            clients: [Window::new(); 32],
        }
    }

    // The window of a client, if there is such a client. The library's look-up in one line, into this record's
    // own windows.
    pub fn window(&self, client: u8) -> Option<Window>
        ensures { result ≡ window_at self.now client }
    {
        self.clients.get(usize::from(client)).copied()
    }

    // Whether a request of this client and timestamp would be applied.
    pub fn admits(&self, client: u8, timestamp: u32) -> bool
        ensures { result ≡ admits self.now client timestamp }
    {
        self.clients
            .get(usize::from(client))
            .is_some_and(|window| window.is_free(timestamp))
    }

    // What is not admitted changes nothing.
    pub fn mark(&mut self, client: u8, timestamp: u32)
        ensures { self.new ≡ marks self.old client timestamp }
    {
        // no `get_mut`: of a slice it does not say what the slice ends as
        if client <= LAST_CLIENT {
            self.clients[usize::from(client)].mark(timestamp);
        }
    }
}
