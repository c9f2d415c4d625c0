// Votes: who voted for what, and whether they are a quorum.
ghost use Rattle.std.specs.Prelude.{◌≡◌, ◌≤◌, length};
ghost use Rattle.table.specs.Ballots.{no_ballots, has_ballot, with_ballot, vote_for, backers, listed, no_votes, with_vote, votes_of, vote_signer, backed, just_backed};

use crate::records::{Ballot, Ballots, Vote, Votes};
use group::check::{first_fault, holds_quorum};
use group::rules::AnyMark;
use group::signed::Signed;
use quorum::house::Threshold;
use wire::records::DigestValue;

// What stands past the count.
const NO_VOTE: Vote = Vote {
    signer: 0,
    digest: DigestValue { word: 0 },
    seal: 0,
};

impl Signed for Vote {
    ghost names = { vote_signer };

    fn signer(&self) -> u8 {
        self.signer
    }
}

impl Votes {
    // No vote.
    pub fn new() -> Votes
        ensures { result ≡ no_votes }
    {
        Votes {
            count: 0,
            list: [NO_VOTE; 16],
        }
    }

    // One vote more; where all 16 places are taken, nothing changes.
    pub fn push(&mut self, vote: Vote)
        ensures { self.new ≡ with_vote self.old vote }
    {
        // no `get_mut`: of a slice it does not say what the slice ends as
        let at = usize::from(self.count);
        if at < self.list.len() {
            self.list[at] = vote;
            self.count += 1;
        }
    }

    pub fn as_slice(&self) -> &[Vote]
        ensures { result.now ≡ votes_of self.now }
    {
        let count = usize::from(self.count).min(16);
        &self.list[..count]
    }
}

#[tactic(auto, unfolding(wire::specs::Values::same_digest))]
fn vote_for(signer: u8, ballot: Option<Ballot>, digest: &DigestValue) -> Option<Vote>
    ensures { result ≡ vote_for digest.now signer ballot }
{
    ballot
        .filter(|ballot| ballot.digest == *digest)
        .map(|ballot| Vote {
            signer,
            digest: ballot.digest,
            seal: ballot.seal,
        })
}

impl Ballots {
    // Nobody has voted.
    pub fn new() -> Ballots
        ensures { result ≡ no_ballots }
    {
        Ballots { of: [None; 16] }
    }

    // Whether a controller has voted.
    pub fn has(&self, signer: u8) -> bool
        ensures { result ≡ has_ballot self.now signer }
    {
        self.of
            .get(usize::from(signer))
            .is_some_and(|ballot| ballot.is_some())
    }

    // A controller's vote; there is no controller from 16 on. Signer and ballot are key and value, as of a map,
    // so they stay two parameters here and wherever a vote is kept.
    pub fn put(&mut self, signer: u8, ballot: Ballot)
        ensures { self.new ≡ with_ballot self.old signer ballot }
    {
        // no `get_mut`: of a slice it does not say what the slice ends as
        let at = usize::from(signer);
        if at < self.of.len() {
            self.of[at] = Some(ballot);
        }
    }

    // The votes for a digest, by ascending signers.
    pub fn backers(&self, digest: &DigestValue) -> Votes
        ensures value { result ≡ listed (backers digest.now self.now) }
        ensures few { length (backers digest.now self.now) ≤ 16 }
    {
        let mut votes = Votes::new();
        for (signer, ballot) in self.of.iter().enumerate() {
            if let Some(vote) = vote_for(signer as u8, *ballot, digest) {
                votes.push(vote);
            }
        }
        votes
    }

    // Whether a quorum voted for a digest.
    pub fn backed(&self, threshold: Threshold, digest: &DigestValue) -> bool
        ensures { result ≡ backed threshold.n threshold.q digest.now self.now }
    {
        holds_quorum(self.backers(digest).as_slice(), threshold)
    }

    // Whether just a quorum voted for a digest, so that the last vote made it one.
    pub fn just_backed(&self, threshold: Threshold, digest: &DigestValue) -> bool
        ensures { result ≡ just_backed threshold.n threshold.q digest.now self.now }
    {
        first_fault(self.backers(digest).as_slice(), threshold, &AnyMark).is_none()
    }
}
