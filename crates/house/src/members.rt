// The controllers of a house, by their numbers.
ghost use Rattle.std.specs.Prelude.{◌≡◌, ◌<◌, ◌≤◌, vec_len, MatchOption};
ghost use Rattle.house.specs.Members.{IsAt};

use application::interface::Application;
use controller::controller::Controller;
use digest::interface::Digest;

#[derive(Drop)]
pub struct Members<D: Digest, A: Application> {
    // controller 0 first; only opening and the calls change them
    pub(crate) controllers: Vec<Controller<D, A>>,
}

impl<D: Digest, A: Application> Members<D, A> {
    // How many controllers there are.
    pub fn len(&self) -> usize
        ensures { result ≡ vec_len self.now.controllers }
    {
        self.controllers.len()
    }

    // The controller of a number.
    pub fn member(&self, i: usize) -> Option<&Controller<D, A>>
        ensures { MatchOption result (vec_len self.now.controllers ≤ i) (λ k. (i < vec_len self.now.controllers) × IsAt self.now.controllers.items i k.now) }
    {
        self.controllers.get(i)
    }
}
