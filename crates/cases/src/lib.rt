// The table of worked cases: what the definitions say on small examples.
#![tactic(auto)]

ghost use Rattle.cases.specs.Cases.{Cases};

// Each case computes: an edit of a definition that turns its meaning is refused here.
pub fn cases_hold() -> u8
    ensures { Cases }
{
    0
}
