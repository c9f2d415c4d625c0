// What is shown of the check: each function's contract is a theorem.
ghost use Rattle.group.specs.Group.{Groups, CommitsProve};

use crate::rules::Rule;
use crate::signed::Signed;

// What the check of a group shows, of any records and rule.
pub fn groups_hold<T: Signed, R: Rule<T>>(rule: &R) -> u8
    ensures { Groups T.names (R.allows rule.now) }
{
    let _ = rule;
    0
}

// What a list of commits with no fault shows.
pub fn commits_prove() -> u8
    ensures { CommitsProve }
{
    0
}
