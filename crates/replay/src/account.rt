// How many calls there were, and what became of them. Counts stay at their largest.
ghost use Rattle.std.specs.Prelude.{◌≡◌};
ghost use Rattle.replay.specs.Account.{counted};

use protocol::records::Answer;
use protocol::refusal::Refusal;
use std::fmt;

#[derive(Clone, Copy, Default)]
pub struct Account {
    pub calls: u64,
    pub accepted: u64,
    pub refused: u64,
    pub batches: u64,
    pub applied: u64,
    pub passed: u64,
}

impl Account {
    pub(crate) fn count(&mut self, res: &Result<Answer, Refusal>)
        ensures { self.new ≡ counted self.old res.now }
    {
        self.calls = self.calls.saturating_add(1);
        match res {
            Ok(answer) => {
                self.accepted = self.accepted.saturating_add(1);
                self.batches = self.batches.saturating_add(answer.batches as u64);
                self.applied = self.applied.saturating_add(answer.applied as u64);
                self.passed = self.passed.saturating_add(answer.passed as u64);
            }
            Err(_) => self.refused = self.refused.saturating_add(1),
        }
    }
}

impl fmt::Display for Account {
    fn fmt<W: fmt::Write>(&self, f: &mut fmt::Formatter<W>) -> fmt::Result {
        let Account {
            calls,
            accepted,
            refused,
            batches,
            applied,
            passed,
        } = self;
        write!(
            f,
            "account calls={calls} accepted={accepted} refused={refused} batches={batches} applied={applied} passed={passed}"
        )
    }
}
