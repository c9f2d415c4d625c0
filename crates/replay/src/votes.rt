// How many have voted.
ghost use Rattle.std.specs.Prelude.{◌≡◌};
ghost use Rattle.replay.specs.Ballots.{voters};

use table::records::Ballots;

pub(crate) fn voters(ballots: &Ballots) -> usize
    ensures { result ≡ voters ballots.now }
{
    ballots.of.iter().filter(|slot| slot.is_some()).count()
}
