// How much a call has delivered.
ghost use Rattle.std.specs.Prelude.{◌≡◌, ◌≤◌};
ghost use Rattle.controller.specs.Agree.{answered};

use protocol::records::Answer;

#[derive(Clone, Copy, Default)]
pub(crate) struct Progress {
    pub(crate) batches: usize,
    pub(crate) applied: usize,
    pub(crate) passed: usize,
}

impl Progress {
    // The answer of a call that issued so many statements, and delivered so much after a number.
    pub(crate) fn answer(&self, issued: usize, before: u64) -> Answer
        requires { before ≤ 1000000000032 }
        ensures { result ≡ answered issued before self.now }
    {
        Answer {
            issued,
            forwarded: 0,
            first: if self.batches == 0 { 0 } else { before + 1 },
            batches: self.batches,
            applied: self.applied,
            passed: self.passed,
        }
    }
}
