// What may be seen of a controller.
ghost use Rattle.std.specs.Prelude.{◌≡◌, true, false, MatchOption};
ghost use Rattle.table.specs.Window.{in_window, place_at};
ghost use Rattle.window.specs.Clients.{window_at};

use crate::controller::Controller;
use application::interface::Application;
use digest::interface::Digest;
use protocol::records::View;
use table::records::Place;
use window::window::Window;

impl<D: Digest, A: Application> Controller<D, A> {
    // The epoch, who leads in it, and its numbers.
    pub fn view(&self) -> View
        ensures { result ≡ self.now.core.view }
    {
        self.core.view
    }

    // The stable number.
    pub fn stable(&self) -> u64
        ensures { result ≡ self.now.core.table.stable }
    {
        self.core.table.stable
    }

    // The number up to which all is delivered.
    pub fn delivered(&self) -> u64
        ensures { result ≡ self.now.core.delivered }
    {
        self.core.delivered
    }

    pub fn app(&self) -> &A
        ensures { result.now ≡ self.now.app }
    {
        &self.app
    }

    // The mark of the application's state.
    pub fn mark(&self) -> u64
        ensures { result ≡ A.marked self.now.app }
    {
        self.app.mark()
    }

    // The window of a client, if there is such a client.
    pub fn window(&self, client: u8) -> Option<Window>
        ensures { result ≡ window_at self.now.core.windows client }
    {
        self.core.windows.window(client)
    }

    // What is kept of a number, if it is one of the 32 above the stable number.
    pub fn place(&self, number: u64) -> Option<&Place>
        ensures { MatchOption result (in_window self.now.core.table number ≡ false) (λ p. (in_window self.now.core.table number ≡ true) × (p.now ≡ place_at self.now.core.table number)) }
    {
        self.core.table.place(number)
    }
}
