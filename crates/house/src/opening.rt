// Opening a house.
ghost use Rattle.std.specs.Prelude.{◌≡◌, true, false, [], ◌∷◌, ◌++◌, Some, MatchResult};
ghost use Rattle.quorum.specs.Sizes.{no_house};
ghost use Rattle.house.specs.Law.{OneLogHolds};
ghost use Rattle.house.specs.Members.{Grown, Numbered, New};
ghost use Rattle.house.specs.Unopened.{Unopened, open_fault_text};
ghost use Rattle.house.specs.declared.opening.OpenFault.TheVariants.{Refused, Memory};

use crate::members::Members;
use application::interface::Application;
use controller::controller::Controller;
use digest::interface::Digest;
use protocol::refusal::Refusal;
use quorum::house::House;
use std::alloc::{AllocFailed, Global};
use std::error::Error;
use std::fmt;

// Why a house is not opened.
#[derive(Clone, Copy, Debug, PartialEq, Eq)]
pub enum OpenFault {
    Refused(Refusal),
    Memory,
}

impl From<Refusal> for OpenFault {
    ghost from_gives = { λ why fault. fault ≡ Refused why };

    fn from(why: Refusal) -> OpenFault {
        OpenFault::Refused(why)
    }
}

impl<T: Drop> From<AllocFailed<T>> for OpenFault {
    ghost from_gives = { λ _ fault. fault ≡ Memory };

    fn from(_e: AllocFailed<T>) -> Self {
        Self::Memory
    }
}

impl fmt::Display for OpenFault {
    ghost output = { λ fault. Some (open_fault_text fault) };

    fn fmt<W: fmt::Write>(&self, f: &mut fmt::Formatter<W>) -> fmt::Result {
        match self {
            OpenFault::Refused(refusal) => write!(f, "refused {refusal}"),
            OpenFault::Memory => write!(f, "out of memory"),
        }
    }
}

impl Error for OpenFault {}

impl<D: Digest + Copy, A: Application + Copy> Members<D, A> {
    // Opens one controller more, of this number.
    fn open_next(&mut self, n: u8, own: u8, digest: D, start: A) -> Result<(), OpenFault>
        ensures { MatchResult result (λ _. (no_house n own ≡ false) × Grown self.old.controllers.items self.new.controllers.items (λ k. New n own digest start k.core k.digest k.app)) (λ e. Unopened n own e) }
    {
        let member = Controller::open(n, own, digest, start)?;
        self.controllers.push(member)?;
        Ok(())
    }

    // Opens a house of n: its controllers are new, and have one digest and one start of the application.
    // So they keep one log.
    pub fn open(heap: Global, n: u8, digest: D, start: A) -> Result<Members<D, A>, OpenFault>
        ensures opened { MatchResult result (λ m. (no_house n 0 ≡ false) × Numbered m.controllers.items n (λ own k. New n own digest start k.core k.digest k.app)) (λ e. Unopened n 0 e) }
        ensures law { OneLogHolds (D.value digest) A.next A.marked start }
    {
        House::new(n, 0).map_err(|_| Refusal::House)?;
        let mut members = Members {
            controllers: Vec::new(heap),
        };
        // controllers' numbers, not indexes
        for own in 0..n {
            members.open_next(n, own, digest, start)?;
        }
        Ok(members)
    }
}
