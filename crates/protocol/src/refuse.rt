// What each call is refused for: a check for each reason, in their order.
ghost use Rattle.std.specs.Prelude.{◌≡◌, ◌<◌, ◌+◌, not, ◌||◌, ◌==◌, nat_le, true, false, cond, MatchResult};
ghost use Rattle.wire.specs.Frames.{stored};
ghost use Rattle.table.specs.Window.{place_at};
ghost use Rattle.protocol.specs.Refusals.{ok_unless, Refuses};
ghost use Rattle.protocol.specs.Call.{cramped};
ghost use Rattle.protocol.specs.Offer.{above_last, not_offered, offer_refusal};
ghost use Rattle.protocol.specs.Vote.{of_epoch, no_vote_kind, not_voted, vote_stands, vote_refusal};
ghost use Rattle.protocol.specs.Supply.{supply_refusal};
ghost use Rattle.protocol.specs.Prove.{proved_digest, prove_refusal};
ghost use Rattle.protocol.specs.Enter.{stale, no_set_of, new_refusal, Judged};
ghost use Rattle.protocol.specs.Change.{last_epoch, undelivered, give_up_refusal, turn_refusal};

use crate::leaders::{is_member, is_within, primary_of};
use crate::records::{Core, View};
use crate::refusal::Refusal;
use crate::requests::{batch_of, check_batch, stored};
use digest::interface::Digest;
use dossier::parts::{LAST, Opened, Terms};
use dossier::target::Target;
use group::check::commits_fault;
use quorum::house::House;
use seal::checker::SealChecker;
use table::records::Place;
use wire::kinds::Kind;
use wire::records::{Batch, DigestValue, Request, Sealed, Statement};

// How many places an outbox has at least.
const ROOM: usize = 400;

// The first check of every call.
fn check_room(outbox: &[Sealed]) -> Result<(), Refusal>
    ensures { Refuses (cramped outbox.now) Refusal.Room result }
{
    if outbox.len() < ROOM {
        return Err(Refusal::Room);
    }
    Ok(())
}

fn check_signer(house: &House, signer: u8) -> Result<(), Refusal>
    ensures { Refuses (nat_le house.now.n signer) Refusal.Signer result }
{
    if signer >= house.n() {
        return Err(Refusal::Signer);
    }
    Ok(())
}

fn check_seal<C: SealChecker>(checker: &C, sealed: &Sealed) -> Result<(), Refusal>
    ensures { Refuses (not (C.accepts checker.now sealed.now.statement sealed.now.seal)) Refusal.Seal result }
{
    if !checker.genuine(&sealed.statement, sealed.seal) {
        return Err(Refusal::Seal);
    }
    Ok(())
}

impl View {
    // Whether this is the epoch that is under way.
    fn check_epoch(&self, epoch: u32) -> Result<(), Refusal>
        ensures { Refuses (self.now.changing || not (epoch == self.now.epoch)) Refusal.Epoch result }
    {
        if self.changing || epoch != self.epoch {
            return Err(Refusal::Epoch);
        }
        Ok(())
    }

    // The next epoch; there is none after the last.
    fn next_epoch(&self) -> Result<u32, Refusal>
        ensures { MatchResult result (λ e. (last_epoch self.now.epoch ≡ false) × (e ≡ self.now.epoch + 1)) (λ e. (last_epoch self.now.epoch ≡ true) × (e ≡ Refusal.LastEpoch)) }
    {
        self.epoch.checked_add(1).ok_or(Refusal::LastEpoch)
    }

    fn is_above_last(&self, s: u64) -> bool
        ensures { result ≡ above_last self.now.last s }
    {
        self.last.is_some_and(|last| s > last)
    }

    // Whether it is too late for an epoch to begin.
    fn is_stale(&self, epoch: u32) -> bool
        ensures { result ≡ stale self.now epoch }
    {
        if self.changing {
            epoch < self.epoch
        } else {
            epoch <= self.epoch
        }
    }

    fn is_undelivered(&self, d: u64) -> bool
        ensures { result ≡ undelivered self.now.last d }
    {
        self.last.is_none_or(|last| d < last)
    }
}

fn is_of_epoch(kind: Kind) -> bool
    ensures { result ≡ of_epoch kind }
{
    kind == Kind::Prepare || kind == Kind::Commit
}

fn is_no_vote_kind(st: &Statement) -> bool
    ensures { result ≡ no_vote_kind st.now }
{
    !(is_of_epoch(st.kind) || st.kind == Kind::Checkpoint)
        || st.held != 0
        || (st.kind == Kind::Checkpoint && st.epoch != 0)
}

// The digest that a list of commits is for.
fn first_digest(commits: &[Sealed]) -> DigestValue
    ensures { result ≡ proved_digest commits.now }
{
    commits
        .first()
        .map_or(DigestValue::from(0), |c| c.statement.digest)
}

// Whether the signer is not the primary, or the leader set lacks it or names no controller.
fn is_no_set_of(house: &House, st: &Statement) -> bool
    requires { st.now.signer < house.now.n }
    ensures { result ≡ no_set_of house.now.n st.now }
{
    let leaders = st.digest.number();
    st.signer != primary_of(house, st.epoch)
        || !is_member(leaders, st.signer)
        || !is_within(house, leaders)
}

impl Core {
    // The place of a number that may be proposed now.
    fn offered_place(&self, s: u64) -> Result<&Place, Refusal>
        ensures { MatchResult result (λ p. (not_offered self.now s ≡ false) × (p.now ≡ place_at self.now.table s)) (λ e. (not_offered self.now s ≡ true) × (e ≡ Refusal.Number)) }
    {
        let place = self.table.place(s).ok_or(Refusal::Number)?;
        if s <= self.delivered || s < self.view.first || self.view.is_above_last(s) || s > LAST {
            return Err(Refusal::Number);
        }
        Ok(place)
    }

    // The batch that an offer is for.
    pub fn check_offer<C: SealChecker, D: Digest>(
        &self,
        checker: &C,
        digest: &D,
        proposal: &Sealed,
        requests: &[Request],
        outbox: &[Sealed],
    ) -> Result<Batch, Refusal>
        ensures { result ≡ ok_unless (stored requests.now) (offer_refusal (C.accepts checker.now) (D.value digest.now) self.now outbox.now proposal.now requests.now) }
    {
        let st = proposal.statement;
        check_room(outbox)?;
        if st.kind != Kind::Proposal || st.held != 0 {
            return Err(Refusal::Kind);
        }
        check_signer(&self.house, st.signer)?;
        self.view.check_epoch(st.epoch)?;
        if self.offered_place(st.number)?.proposal.is_some() {
            return Err(Refusal::Standing);
        }
        if !self.view.owns(&self.house, st.number, st.signer) {
            return Err(Refusal::Authority);
        }
        check_batch(digest, &st.digest, requests)?;
        check_seal(checker, proposal)?;
        // where the first bad one stands is no error until the call makes it one, here and in `check_prove`
        if let Some(i) = self.first_bad(checker, digest, st.number, requests) {
            return Err(Refusal::Request(i));
        }
        stored(requests)
    }

    // The place that a vote is for; a checkpoint's number is one of a checkpoint.
    fn voted_place(&self, st: &Statement) -> Result<&Place, Refusal>
        ensures { MatchResult result (λ p. (not_voted self.now st.now ≡ false) × (p.now ≡ place_at self.now.table st.now.number)) (λ e. (not_voted self.now st.now ≡ true) × (e ≡ Refusal.Number)) }
    {
        let place = self.table.place(st.number).ok_or(Refusal::Number)?;
        if st.kind == Kind::Checkpoint && (st.number > LAST || st.number % 16 != 0) {
            return Err(Refusal::Number);
        }
        Ok(place)
    }

    // Whether this signer's vote of this kind stands; the place is that of its number.
    fn vote_stands(&self, place: &Place, st: &Statement) -> bool
        requires { place.now ≡ place_at self.now.table st.now.number }
        ensures { result ≡ vote_stands self.now.table st.now }
    {
        match st.kind {
            Kind::Prepare => place.prepares.has(st.signer),
            Kind::Commit => place.commits.has(st.signer),
            _ => self.table.row(st.number).has(st.signer),
        }
    }

    pub fn check_vote<C: SealChecker>(
        &self,
        checker: &C,
        vote: &Sealed,
        outbox: &[Sealed],
    ) -> Result<(), Refusal>
        ensures { result ≡ ok_unless tt (vote_refusal (C.accepts checker.now) self.now outbox.now vote.now) }
    {
        let st = vote.statement;
        check_room(outbox)?;
        if is_no_vote_kind(&st) {
            return Err(Refusal::Kind);
        }
        check_signer(&self.house, st.signer)?;
        if is_of_epoch(st.kind) {
            self.view.check_epoch(st.epoch)?;
        }
        let place = self.voted_place(&st)?;
        if is_of_epoch(st.kind) && !place.proposes(&st.digest) {
            return Err(Refusal::Unproposed);
        }
        if self.vote_stands(place, &st) {
            return Err(Refusal::Standing);
        }
        check_seal(checker, vote)
    }

    // The batch that is supplied.
    pub fn check_supply<D: Digest>(
        &self,
        digest: &D,
        s: u64,
        requests: &[Request],
        outbox: &[Sealed],
    ) -> Result<Batch, Refusal>
        ensures { result ≡ ok_unless (stored requests.now) (supply_refusal (D.value digest.now) self.now outbox.now s requests.now) }
    {
        check_room(outbox)?;
        let place = self.table.place(s).ok_or(Refusal::Number)?;
        let wanted = place.proposal.ok_or(Refusal::Unproposed)?;
        if place.batch.is_some() {
            return Err(Refusal::Unproposed);
        }
        batch_of(digest, &wanted, requests)
    }

    // The batch that is proved.
    pub fn check_prove<C: SealChecker, D: Digest>(
        &self,
        checker: &C,
        digest: &D,
        s: u64,
        requests: &[Request],
        commits: &[Sealed],
        outbox: &[Sealed],
    ) -> Result<Batch, Refusal>
        ensures { result ≡ ok_unless (stored requests.now) (prove_refusal (C.accepts checker.now) (D.value digest.now) self.now outbox.now s requests.now commits.now) }
    {
        check_room(outbox)?;
        if s.checked_sub(1) != Some(self.delivered) || s > LAST {
            return Err(Refusal::Number);
        }
        if let Some(i) = commits_fault(commits, self.house.threshold(), s, checker) {
            return Err(Refusal::Record(i));
        }
        batch_of(digest, &first_digest(commits), requests)
    }

    // What a new epoch is refused for, its dossier aside.
    fn check_new<C: SealChecker>(
        &self,
        checker: &C,
        new: &Sealed,
        outbox: &[Sealed],
    ) -> Result<(), Refusal>
        ensures { MatchResult result (λ _. None ≡ new_refusal (C.accepts checker.now) self.now outbox.now new.now) (λ e. Some e ≡ new_refusal (C.accepts checker.now) self.now outbox.now new.now) }
    {
        let st = new.statement;
        check_room(outbox)?;
        if st.kind != Kind::New || st.held != 0 {
            return Err(Refusal::Kind);
        }
        check_signer(&self.house, st.signer)?;
        if self.view.is_stale(st.epoch) {
            return Err(Refusal::Epoch);
        }
        if is_no_set_of(&self.house, &st) {
            return Err(Refusal::Authority);
        }
        check_seal(checker, new)
    }

    // What the dossier of a new epoch says, or what the epoch is refused for.
    pub fn judge<C: SealChecker>(
        &self,
        checker: &C,
        new: &Sealed,
        records: &[Sealed],
        outbox: &[Sealed],
    ) -> Result<Opened, Refusal>
        ensures { Judged (C.accepts checker.now) self.now outbox.now new.now records.now result }
    {
        self.check_new(checker, new, outbox)?;
        let target = Target {
            checker,
            terms: Terms {
                threshold: self.house.threshold(),
                epoch: new.statement.epoch,
            },
        };
        let opened = target.walk(records).map_err(Refusal::Record)?;
        if new.statement.number != opened.base {
            return Err(Refusal::Number);
        }
        Ok(opened)
    }

    // The epoch that is given up for.
    pub fn check_give_up(&self, outbox: &[Sealed]) -> Result<u32, Refusal>
        ensures { result ≡ ok_unless (self.now.view.epoch + 1) (give_up_refusal self.now outbox.now) }
    {
        check_room(outbox)?;
        let target = self.view.next_epoch()?;
        Ok(target)
    }

    // The epoch that begins.
    pub fn check_turn(&self, outbox: &[Sealed]) -> Result<u32, Refusal>
        ensures { result ≡ ok_unless (self.now.view.epoch + 1) (turn_refusal self.now outbox.now) }
    {
        check_room(outbox)?;
        if self.view.changing || self.view.is_undelivered(self.delivered) {
            return Err(Refusal::Unfinished);
        }
        self.view.next_epoch()
    }
}
