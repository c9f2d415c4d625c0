// The table as a whole: 32 places, altered one at a time, and how it moves on.
ghost use Rattle.std.specs.Prelude.{◌≡◌, ◌-◌, ◌<◌, true, false, MatchOption};
ghost use Rattle.std.specs.Fn.{FnOnceReturnsAtMut};
ghost use Rattle.table.specs.declared.records.Place.{Place};
ghost use Rattle.table.specs.Window.{new_table, in_window, place_at, with_place, fill_at, supply_at, prepare_at, commit_at, certify_at, row_of, row_at, checkpoint_at, move_to, enter_all};

use crate::records::{Ballot, Ballots, Place, Table, Votes};
use crate::shift::shift_in;
use wire::records::{Batch, DigestValue};

impl Table {
    // Nothing is stable, and nothing has happened.
    #[tactic(auto, unfolding(crate::specs::Window::new_table))]
    pub fn new() -> Table
        ensures { result ≡ new_table }
    {
        Table {
            stable: 0,
            proof: Votes::new(),
            rows: [Ballots::new(); 2],
            places: [Place::new(); 32],
        }
    }

    // The index of a number's place.
    fn index(&self, number: u64) -> Option<usize>
        ensures { MatchOption result (in_window self.now number ≡ false) (λ i. (in_window self.now number ≡ true) × (i ≡ number - self.now.stable - 1) × (i < 32)) }
    {
        let past = number.checked_sub(self.stable)?.checked_sub(1)?;
        (past < 32).then_some(past as usize)
    }

    // The place of a number, if it has one.
    pub fn place(&self, number: u64) -> Option<&Place>
        ensures { MatchOption result (in_window self.now number ≡ false) (λ p. (in_window self.now number ≡ true) × (p.now ≡ place_at self.now number)) }
    {
        self.index(number).map(|i| &self.places[i])
    }

    // Changes the place of a number, if it has one. The five that follow say what is changed, each in its contract.
    fn change<F: FnOnce(&mut Place)>(&mut self, number: u64, change: F)
        requires { F.IsAlwaysCallable change }
        ensures { (p : Place) × (in_window self.old number ≡ true → FnOnceReturnsAtMut F.FnOnce change (place_at self.old number) tt p) × (self.new ≡ with_place self.old number p) }
    {
        // a closure: an `Option<&mut Place>` out of an array would not say what the array ends as
        if let Some(i) = self.index(number) {
            change(&mut self.places[i]);
        }
    }

    // Fills a number's place.
    pub fn fill(&mut self, number: u64, digest: DigestValue, batch: Option<Batch>)
        ensures { self.new ≡ fill_at self.old number digest batch }
    {
        self.change(number, |place| place.fill(digest, batch));
    }

    // Makes a number's batch known.
    pub fn supply(&mut self, number: u64, batch: Batch)
        ensures { self.new ≡ supply_at self.old number batch }
    {
        self.change(number, |place| place.supply(batch));
    }

    // A controller's prepare.
    pub fn prepare(&mut self, number: u64, signer: u8, ballot: Ballot)
        ensures { self.new ≡ prepare_at self.old number signer ballot }
    {
        self.change(number, |place| place.prepare(signer, ballot));
    }

    // A controller's commit.
    pub fn commit(&mut self, number: u64, signer: u8, ballot: Ballot)
        ensures { self.new ≡ commit_at self.old number signer ballot }
    {
        self.change(number, |place| place.commit(signer, ballot));
    }

    // The prepares for a digest become the certificate.
    pub fn certify(&mut self, number: u64, epoch: u32, digest: DigestValue)
        ensures { self.new ≡ certify_at self.old number epoch digest }
    {
        self.change(number, |place| place.certify(epoch, digest));
    }

    fn row_of(&self, number: u64) -> usize
        ensures exact { result ≡ row_of self.now number }
        ensures few { result < 2 }
    {
        usize::from(number.saturating_sub(self.stable) > 16)
    }

    // The checkpoints for a number.
    pub fn row(&self, number: u64) -> &Ballots
        ensures { result.now ≡ row_at self.now number }
    {
        let row = self.row_of(number);
        &self.rows[row]
    }

    // A controller's checkpoint.
    pub fn checkpoint(&mut self, number: u64, signer: u8, ballot: Ballot)
        ensures { self.new ≡ checkpoint_at self.old number signer ballot }
    {
        let row = self.row_of(number);
        self.rows[row].put(signer, ballot);
    }

    // A higher number is stable: the window moves there.
    pub fn move_to(&mut self, number: u64, proof: Votes)
        ensures { self.new ≡ move_to self.old number proof }
    {
        if number > self.stable {
            let by = number - self.stable;
            shift_in(&mut self.rows, (by / 16).min(2) as usize, Ballots::new());
            shift_in(&mut self.places, by.min(32) as usize, Place::new());
            self.stable = number;
            self.proof = proof;
        }
    }

    // Another epoch: the places are emptied but for their certificates, and filled with what is
    // chosen for them.
    pub fn enter(&mut self, chosen: &[Option<DigestValue>; 32])
        ensures { self.new ≡ enter_all self.old chosen.now }
    {
        for (i, digest) in chosen.iter().enumerate() {
            self.places[i].enter(*digest);
        }
    }
}
