// The law above the calls.
ghost use Rattle.house.specs.Law.{OneLogHolds};
ghost use Rattle.house.specs.Example.{PremisesHold};
ghost use Rattle.house.specs.Blunders.{BlundersShow};

use application::interface::Application;
use digest::interface::Digest;

// For every digest and every application: a house keeps one log.
pub fn one_log_holds<D: Digest, A: Application>(digest: &D, start: &A) -> u8
    ensures { OneLogHolds (D.Digest.value digest.now) A.Application.next A.Application.marked start.now }
{
    0
}

// The premises of one log hold of a run that delivers: they are not empty.
pub fn premises_hold() -> u8
    ensures { PremisesHold }
{
    0
}

// Choosing the most frequent claim, or counting one less than a quorum, loses what was committed.
pub fn blunders_show() -> u8
    ensures { BlundersShow }
{
    0
}
