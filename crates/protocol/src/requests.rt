// Whether a batch may be proposed: its digest, and each of its requests.
ghost use Rattle.std.specs.Prelude.{◌≡◌, ◌+◌, ◌<◌, ◌≤◌, length, true, false, MatchResult};
ghost use Rattle.wire.specs.Frames.{stored};
ghost use Rattle.protocol.specs.Refusals.{Refuses};
ghost use Rattle.protocol.specs.Offer.{no_batch_of, same_request, has_request, in_batch, known_from, bad_request, first_bad};

use crate::records::Core;
use crate::refusal::Refusal;
use digest::batches::{batch_digest, bucket};
use digest::interface::Digest;
use seal::checker::SealChecker;
use table::records::Place;
use wire::records::{Batch, DigestValue, Request};

// Whether requests are the batch of a digest.
#[tactic(auto, unfolding(wire::specs::Values::same_digest))]
pub(crate) fn check_batch<D: Digest>(
    digest: &D,
    wanted: &DigestValue,
    requests: &[Request],
) -> Result<(), Refusal>
    ensures { Refuses (no_batch_of (D.value digest.now) wanted.now requests.now) Refusal.Batch result }
{
    let d = batch_digest(digest, requests).map_err(|_| Refusal::Batch)?;
    if d != *wanted || (requests.len() > 0 && d == DigestValue::from(0)) {
        return Err(Refusal::Batch);
    }
    Ok(())
}

// Requests as a batch; more than 16 are none. Made last by whoever asks, since it is a copy, and what is refused
// needs none.
pub(crate) fn stored(requests: &[Request]) -> Result<Batch, Refusal>
    ensures { MatchResult result (λ b. (length requests.now ≤ 16) × (b ≡ stored requests.now)) (λ e. (16 < length requests.now) × (e ≡ Refusal.Batch)) }
{
    let batch = Batch::from_slice(requests).map_err(|_| Refusal::Batch)?;
    Ok(batch)
}

// The batch of a digest, if these requests are it.
pub(crate) fn batch_of<D: Digest>(
    digest: &D,
    wanted: &DigestValue,
    requests: &[Request],
) -> Result<Batch, Refusal>
    ensures { MatchResult result (λ b. (no_batch_of (D.value digest.now) wanted.now requests.now ≡ false) × (b ≡ stored requests.now)) (λ e. (no_batch_of (D.value digest.now) wanted.now requests.now ≡ true) × (e ≡ Refusal.Batch)) }
{
    check_batch(digest, wanted, requests)?;
    stored(requests)
}

// No `==`: payload and seal do not count.
fn is_same(a: &Request, b: &Request) -> bool
    ensures { result ≡ same_request a.now b.now }
{
    a.client == b.client && a.timestamp == b.timestamp
}

fn has_request(requests: &[Request], q: &Request) -> bool
    ensures { result ≡ has_request requests.now q.now }
{
    requests.iter().any(|x| is_same(x, q))
}

fn batch_has(batch: &Option<Batch>, q: &Request) -> bool
    ensures { result ≡ in_batch batch.now q.now }
{
    batch.as_ref().is_some_and(|b| has_request(b.as_slice(), q))
}

// Whether a known batch above the number d has a request; the first place is that of base + 1.
fn is_known(places: &[Place], base: u64, d: u64, q: &Request) -> bool
    ensures { result ≡ known_from (base + 1) d q.now places.now }
{
    let delivered = d.saturating_sub(base) as usize;
    places
        .iter()
        .skip(delivered)
        .any(|p| batch_has(&p.batch, q))
}

impl Core {
    // Whether a request, after those before it in its batch for a number, is bad.
    fn is_bad<C: SealChecker, D: Digest>(
        &self,
        checker: &C,
        digest: &D,
        s: u64,
        earlier: &[Request],
        q: &Request,
    ) -> bool
        ensures { result ≡ bad_request (C.accepts checker.now) (D.value digest.now) self.now s earlier.now q.now }
    {
        // the bucket is asked for only where all before it holds: it costs a digest
        !self.windows.admits(q.client, q.timestamp)
            || has_request(earlier, q)
            || is_known(&self.table.places, self.table.stable, self.delivered, q)
            || !self
                .view
                .in_bucket(&self.house, s, bucket(digest, q.client, q.timestamp))
            || !checker.genuine(&q.statement(), q.seal)
    }

    // The index of the first bad request of a batch for a number. Checker and digest stay two
    // parameters: a call is handed the one and keeps the other, and a struct of both would be made only here.
    pub(crate) fn first_bad<C: SealChecker, D: Digest>(
        &self,
        checker: &C,
        digest: &D,
        s: u64,
        requests: &[Request],
    ) -> Option<usize>
        ensures { result ≡ first_bad (C.accepts checker.now) (D.value digest.now) self.now s requests.now 0 requests.now }
    {
        for (i, q) in requests.iter().enumerate() {
            if self.is_bad(checker, digest, s, &requests[..i], q) {
                return Some(i);
            }
        }
        None
    }
}
