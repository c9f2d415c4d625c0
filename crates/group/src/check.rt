// The quorum check: one text for every record that names a signer.
ghost use Rattle.std.specs.Prelude.{◌≡◌, ℕ, ◌≤◌, Bool, true, take, drop};
ghost use Rattle.group.specs.Group.{grouped, list_fault, quorum_held, commits_fault};
ghost use Rattle.quorum.specs.Sets.{count, signed_by};

use crate::rules::{AnyMark, Exact, Rule};
use crate::signed::Signed;
use quorum::house::Threshold;
use seal::checker::SealChecker;
use wire::kinds::Kind;
use wire::records::Sealed;

// The records from a place on; none past the end.
fn tail<T>(list: &[T], from: usize) -> &[T]
    ensures { result.now ≡ drop from list.now }
{
    let start = from.min(list.len());
    &list[start..]
}

// The place after the group of q records that begins at a place, or the place of the first record
// at fault or missing.
pub fn group<T: Signed, R: Rule<T>>(
    list: &[T],
    from: usize,
    threshold: Threshold,
    rule: &R,
) -> Result<usize, usize>
    ensures { result ≡ grouped T.names (R.allows rule.now) threshold.n threshold.q from 0 (drop from list.now) }
{
    let rest = tail(list, from);
    let mut least: u8 = 0;
    for (i, x) in rest[..threshold.q.min(rest.len())].iter().enumerate() {
        let s = x.signer();
        if s < least || s >= threshold.n || !rule.allowed(x) {
            return Err(from + i);
        }
        least = s + 1;
    }
    if rest.len() < threshold.q {
        return Err(from + rest.len());
    }
    Ok(from + threshold.q)
}

// The index of the first record at fault, missing or surplus in a list that is one group. A find: whether that is
// an error, the caller says.
pub fn first_fault<T: Signed, R: Rule<T>>(
    list: &[T],
    threshold: Threshold,
    rule: &R,
) -> Option<usize>
    ensures { result ≡ list_fault T.names (R.allows rule.now) threshold.n threshold.q list.now }
{
    match group(list, 0, threshold, rule) {
        Err(i) => Some(i),
        Ok(next) if next < list.len() => Some(next),
        Ok(_) => None,
    }
}

// Whether the first q records of a list are a quorum: q different controllers.
pub fn holds_quorum<T: Signed>(list: &[T], threshold: Threshold) -> bool
    ensures exact { result ≡ quorum_held T.names threshold.n threshold.q list.now }
    ensures counted { result ≡ true → threshold.q ≤ count (signed_by T.names (take threshold.q list.now)) threshold.n }
{
    group(list, 0, threshold, &AnyMark).is_ok()
}

// The index of the first record at fault, missing or surplus in a list of commits that proves a
// number: one epoch from 1 up and one digest, which the first sets.
pub fn commits_fault<C: SealChecker>(
    list: &[Sealed],
    threshold: Threshold,
    number: u64,
    checker: &C,
) -> Option<usize>
    ensures { result ≡ commits_fault (C.accepts checker.now) threshold.n threshold.q number list.now }
{
    let Some(
        Sealed {
            statement: first,
            ..
        },
    ) = list.first()
    else {
        return Some(0);
    };
    if first.epoch == 0 {
        return Some(0);
    }
    let rule = Exact {
        checker,
        kind: Kind::Commit,
        epoch: first.epoch,
        number,
        digest: first.digest,
    };
    first_fault(list, threshold, &rule)
}
