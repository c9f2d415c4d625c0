// The calls. Each has a contract that says all of it: what it answers, and what core, application and
// outbox are at its end; a refused call changes nothing.
ghost use Rattle.std.specs.Prelude.{◌≡◌, true, false, MatchResult};
ghost use Rattle.quorum.specs.Sizes.{no_house};
ghost use Rattle.protocol.specs.State.{new_core};
ghost use Rattle.protocol.specs.Offer.{offered};
ghost use Rattle.protocol.specs.Vote.{voted};
ghost use Rattle.protocol.specs.Supply.{supplied};
ghost use Rattle.protocol.specs.Prove.{proved};
ghost use Rattle.protocol.specs.Change.{gave_up, took_turn};
ghost use Rattle.protocol.specs.Enter.{entered};
ghost use Rattle.controller.specs.Agree.{Agrees};

use crate::controller::Controller;
use crate::deliver::{deliver_one, deliver_ready};
use crate::enter::accept_enter;
use crate::give_up::accept_give_up;
use crate::offer::accept_offer;
use crate::post::Post;
use crate::progress::Progress;
use crate::turn::accept_turn;
use crate::vote::accept_vote;
use application::interface::Application;
use digest::interface::Digest;
use protocol::records::{Answer, Core};
use protocol::refusal::Refusal;
use quorum::house::House;
use seal::checker::SealChecker;
use wire::records::{Request, Sealed};

// The answer of a call that delivers nothing.
fn quiet(issued: usize, forwarded: usize) -> Answer
    ensures { result ≡ record { issued = issued; forwarded = forwarded; first = 0; batches = 0; applied = 0; passed = 0 } }
{
    Answer {
        issued,
        forwarded,
        ..Answer::default()
    }
}

impl<D: Digest + Drop, A: Application + Drop> Controller<D, A> {
    // A controller of a house at its start; refused is a house that cannot be.
    pub fn open(n: u8, own: u8, digest: D, app: A) -> Result<Controller<D, A>, Refusal>
        ensures { MatchResult result (λ k. (no_house n own ≡ false) × (k.core.house.n ≡ n) × (k.core.house.own ≡ own) × (k.core ≡ new_core k.core.house) × (k.digest ≡ digest) × (k.app ≡ app)) (λ e. (no_house n own ≡ true) × (e ≡ Refusal.House)) }
    {
        let house = House::new(n, own).map_err(|_| Refusal::House)?;
        Ok(Controller {
            core: Core::new(house),
            digest,
            app,
        })
    }
}

impl<D: Digest, A: Application> Controller<D, A> {
    pub fn offer<C: SealChecker>(
        &mut self,
        checker: &C,
        proposal: &Sealed,
        requests: &[Request],
        outbox: &mut [Sealed],
    ) -> Result<Answer, Refusal>
        ensures agrees { Agrees (offered (C.accepts checker.now) (D.value self.old.digest) self.old.core self.old.app outbox.old proposal.now requests.now) result self.new.core self.new.app outbox.new }
        ensures digest { self.new.digest ≡ self.old.digest }
    {
        let batch = self
            .core
            .check_offer(checker, &self.digest, proposal, requests, outbox)?;
        let mut post = Post::new(outbox);
        accept_offer(&mut self.core, proposal, batch, &mut post);
        Ok(quiet(1, 0))
    }

    pub fn vote<C: SealChecker>(
        &mut self,
        checker: &C,
        vote: &Sealed,
        outbox: &mut [Sealed],
    ) -> Result<Answer, Refusal>
        ensures agrees { Agrees (voted A.next A.marked (C.accepts checker.now) self.old.core self.old.app outbox.old vote.now) result self.new.core self.new.app outbox.new }
        ensures digest { self.new.digest ≡ self.old.digest }
    {
        self.core.check_vote(checker, vote, outbox)?;
        let before = self.core.delivered;
        let mut post = Post::new(outbox);
        accept_vote(&mut self.core, vote, &mut post);
        let none = Progress::default();
        let progress = deliver_ready(&mut self.core, &mut self.app, &mut post, none);
        Ok(progress.answer(post.sent, before))
    }

    pub fn supply(
        &mut self,
        number: u64,
        requests: &[Request],
        outbox: &mut [Sealed],
    ) -> Result<Answer, Refusal>
        ensures agrees { Agrees (supplied A.next A.marked (D.value self.old.digest) self.old.core self.old.app outbox.old number requests.now) result self.new.core self.new.app outbox.new }
        ensures digest { self.new.digest ≡ self.old.digest }
    {
        let batch = self
            .core
            .check_supply(&self.digest, number, requests, outbox)?;
        let before = self.core.delivered;
        let mut post = Post::new(outbox);
        self.core.table.supply(number, batch);
        let none = Progress::default();
        let progress = deliver_ready(&mut self.core, &mut self.app, &mut post, none);
        Ok(progress.answer(post.sent, before))
    }

    pub fn prove<C: SealChecker>(
        &mut self,
        checker: &C,
        number: u64,
        requests: &[Request],
        commits: &[Sealed],
        outbox: &mut [Sealed],
    ) -> Result<Answer, Refusal>
        ensures agrees { Agrees (proved A.next A.marked (C.accepts checker.now) (D.value self.old.digest) self.old.core self.old.app outbox.old number requests.now commits.now) result self.new.core self.new.app outbox.new }
        ensures digest { self.new.digest ≡ self.old.digest }
    {
        let batch = self
            .core
            .check_prove(checker, &self.digest, number, requests, commits, outbox)?;
        let before = self.core.delivered;
        let mut post = Post::new(outbox);
        let none = Progress::default();
        let first = deliver_one(&mut self.core, &mut self.app, &batch, &mut post, none);
        let progress = deliver_ready(&mut self.core, &mut self.app, &mut post, first);
        Ok(progress.answer(post.sent, before))
    }

    pub fn give_up(&mut self, outbox: &mut [Sealed]) -> Result<Answer, Refusal>
        ensures agrees { Agrees (gave_up self.old.core self.old.app outbox.old) result self.new.core self.new.app outbox.new }
        ensures digest { self.new.digest ≡ self.old.digest }
    {
        let epoch = self.core.check_give_up(outbox)?;
        let mut post = Post::new(outbox);
        let forwarded = accept_give_up(&mut self.core, epoch, &mut post);
        Ok(quiet(33, forwarded))
    }

    pub fn enter<C: SealChecker>(
        &mut self,
        checker: &C,
        new: &Sealed,
        records: &[Sealed],
        outbox: &mut [Sealed],
    ) -> Result<Answer, Refusal>
        ensures agrees { Agrees (entered (C.accepts checker.now) self.old.core self.old.app outbox.old new.now records.now) result self.new.core self.new.app outbox.new }
        ensures digest { self.new.digest ≡ self.old.digest }
    {
        let opened = self.core.judge(checker, new, records, outbox)?;
        let mut post = Post::new(outbox);
        accept_enter(&mut self.core, new, records, &opened, &mut post);
        Ok(quiet(post.sent, 0))
    }

    pub fn turn(&mut self, outbox: &mut [Sealed]) -> Result<Answer, Refusal>
        ensures agrees { Agrees (took_turn self.old.core self.old.app outbox.old) result self.new.core self.new.app outbox.new }
        ensures digest { self.new.digest ≡ self.old.digest }
    {
        let epoch = self.core.check_turn(outbox)?;
        accept_turn(&mut self.core, epoch);
        Ok(quiet(0, 0))
    }
}
