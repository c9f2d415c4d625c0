// The place of one number.
ghost use Rattle.std.specs.Prelude.{◌≡◌};
ghost use Rattle.table.specs.Places.{empty_place, filled, supplied, prepared, committed, certified, proposes, entered};

use crate::records::{Ballot, Ballots, Certificate, Place};
use wire::records::{Batch, DigestValue};

impl Place {
    pub(crate) fn new() -> Place
        ensures { result ≡ empty_place }
    {
        Place {
            proposal: None,
            batch: None,
            prepares: Ballots::new(),
            commits: Ballots::new(),
            certificate: None,
        }
    }

    // Whether it is filled with a digest.
    #[tactic(auto, unfolding(wire::specs::Values::same_digest))]
    pub fn proposes(&self, digest: &DigestValue) -> bool
        ensures { result ≡ proposes self.now.proposal digest.now }
    {
        self.proposal.is_some_and(|d| d == *digest)
    }

    pub(crate) fn fill(&mut self, digest: DigestValue, batch: Option<Batch>)
        ensures { self.new ≡ filled digest batch self.old }
    {
        self.proposal = Some(digest);
        self.batch = batch;
    }

    pub(crate) fn supply(&mut self, batch: Batch)
        ensures { self.new ≡ supplied batch self.old }
    {
        self.batch = Some(batch);
    }

    pub(crate) fn prepare(&mut self, signer: u8, ballot: Ballot)
        ensures { self.new ≡ prepared signer ballot self.old }
    {
        self.prepares.put(signer, ballot);
    }

    pub(crate) fn commit(&mut self, signer: u8, ballot: Ballot)
        ensures { self.new ≡ committed signer ballot self.old }
    {
        self.commits.put(signer, ballot);
    }

    pub(crate) fn certify(&mut self, epoch: u32, digest: DigestValue)
        ensures { self.new ≡ certified epoch digest self.old }
    {
        let prepares = self.prepares.backers(&digest);
        self.certificate = Some(Certificate {
            epoch,
            digest,
            prepares,
        });
    }

    #[tactic(auto, unfolding(wire::specs::Values::same_digest))]
    pub(crate) fn enter(&mut self, chosen: Option<DigestValue>)
        ensures { self.new ≡ entered chosen self.old }
    {
        // a batch that stays is left where it is, and not copied
        if chosen.is_some_and(|digest| digest == DigestValue::from(0)) {
            self.batch = Some(Batch::new());
        } else if !chosen.is_some_and(|digest| self.proposes(&digest)) {
            self.batch = None;
        }
        self.proposal = chosen;
        self.prepares = Ballots::new();
        self.commits = Ballots::new();
    }
}
