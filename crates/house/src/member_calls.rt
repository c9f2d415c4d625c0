// The calls, by the number of the controller; none where there is no such controller, and then nothing
// changes. The call is the controller's own, and no other controller changes. Seven methods of two lines, and no
// one that takes a closure: each has the contract of its call.
ghost use Rattle.std.specs.Prelude.{◌≡◌};
ghost use Rattle.protocol.specs.Offer.{offered};
ghost use Rattle.protocol.specs.Vote.{voted};
ghost use Rattle.protocol.specs.Supply.{supplied};
ghost use Rattle.protocol.specs.Prove.{proved};
ghost use Rattle.protocol.specs.Change.{gave_up, took_turn};
ghost use Rattle.protocol.specs.Enter.{entered};
ghost use Rattle.controller.specs.Agree.{Agrees};
ghost use Rattle.house.specs.Members.{Answered, Only};

use crate::members::Members;
use application::interface::Application;
use digest::interface::Digest;
use protocol::records::Answer;
use protocol::refusal::Refusal;
use seal::checker::SealChecker;
use wire::records::{Request, Sealed};

impl<D: Digest, A: Application> Members<D, A> {
    pub fn offer<C: SealChecker>(
        &mut self,
        i: usize,
        checker: &C,
        proposal: &Sealed,
        requests: &[Request],
        outbox: &mut [Sealed],
    ) -> Option<Result<Answer, Refusal>>
        ensures call { Answered self.old.controllers.items self.new.controllers.items outbox.old outbox.new i (λ before answer after. Agrees (offered (C.accepts checker.now) (D.value before.digest) before.core before.app outbox.old proposal.now requests.now) answer after.core after.app outbox.new × (after.digest ≡ before.digest)) result }
        ensures only { Only self.old.controllers.items self.new.controllers.items i }
    {
        let member = self.controllers.get_mut(i)?;
        Some(member.offer(checker, proposal, requests, outbox))
    }

    pub fn vote<C: SealChecker>(
        &mut self,
        i: usize,
        checker: &C,
        vote: &Sealed,
        outbox: &mut [Sealed],
    ) -> Option<Result<Answer, Refusal>>
        ensures call { Answered self.old.controllers.items self.new.controllers.items outbox.old outbox.new i (λ before answer after. Agrees (voted A.next A.marked (C.accepts checker.now) before.core before.app outbox.old vote.now) answer after.core after.app outbox.new × (after.digest ≡ before.digest)) result }
        ensures only { Only self.old.controllers.items self.new.controllers.items i }
    {
        let member = self.controllers.get_mut(i)?;
        Some(member.vote(checker, vote, outbox))
    }

    pub fn supply(
        &mut self,
        i: usize,
        number: u64,
        requests: &[Request],
        outbox: &mut [Sealed],
    ) -> Option<Result<Answer, Refusal>>
        ensures call { Answered self.old.controllers.items self.new.controllers.items outbox.old outbox.new i (λ before answer after. Agrees (supplied A.next A.marked (D.value before.digest) before.core before.app outbox.old number requests.now) answer after.core after.app outbox.new × (after.digest ≡ before.digest)) result }
        ensures only { Only self.old.controllers.items self.new.controllers.items i }
    {
        let member = self.controllers.get_mut(i)?;
        Some(member.supply(number, requests, outbox))
    }

    pub fn prove<C: SealChecker>(
        &mut self,
        i: usize,
        checker: &C,
        number: u64,
        requests: &[Request],
        commits: &[Sealed],
        outbox: &mut [Sealed],
    ) -> Option<Result<Answer, Refusal>>
        ensures call { Answered self.old.controllers.items self.new.controllers.items outbox.old outbox.new i (λ before answer after. Agrees (proved A.next A.marked (C.accepts checker.now) (D.value before.digest) before.core before.app outbox.old number requests.now commits.now) answer after.core after.app outbox.new × (after.digest ≡ before.digest)) result }
        ensures only { Only self.old.controllers.items self.new.controllers.items i }
    {
        let member = self.controllers.get_mut(i)?;
        Some(member.prove(checker, number, requests, commits, outbox))
    }

    pub fn give_up(&mut self, i: usize, outbox: &mut [Sealed]) -> Option<Result<Answer, Refusal>>
        ensures call { Answered self.old.controllers.items self.new.controllers.items outbox.old outbox.new i (λ before answer after. Agrees (gave_up before.core before.app outbox.old) answer after.core after.app outbox.new × (after.digest ≡ before.digest)) result }
        ensures only { Only self.old.controllers.items self.new.controllers.items i }
    {
        let member = self.controllers.get_mut(i)?;
        Some(member.give_up(outbox))
    }

    pub fn enter<C: SealChecker>(
        &mut self,
        i: usize,
        checker: &C,
        new: &Sealed,
        records: &[Sealed],
        outbox: &mut [Sealed],
    ) -> Option<Result<Answer, Refusal>>
        ensures call { Answered self.old.controllers.items self.new.controllers.items outbox.old outbox.new i (λ before answer after. Agrees (entered (C.accepts checker.now) before.core before.app outbox.old new.now records.now) answer after.core after.app outbox.new × (after.digest ≡ before.digest)) result }
        ensures only { Only self.old.controllers.items self.new.controllers.items i }
    {
        let member = self.controllers.get_mut(i)?;
        Some(member.enter(checker, new, records, outbox))
    }

    pub fn turn(&mut self, i: usize, outbox: &mut [Sealed]) -> Option<Result<Answer, Refusal>>
        ensures call { Answered self.old.controllers.items self.new.controllers.items outbox.old outbox.new i (λ before answer after. Agrees (took_turn before.core before.app outbox.old) answer after.core after.app outbox.new × (after.digest ≡ before.digest)) result }
        ensures only { Only self.old.controllers.items self.new.controllers.items i }
    {
        let member = self.controllers.get_mut(i)?;
        Some(member.turn(outbox))
    }
}
