// The digest of a batch, and the bucket of a request.
ghost use Rattle.std.specs.Prelude.{◌≡◌};
ghost use Rattle.digest.specs.Batched.{digest_batch, bucket_of};

use crate::interface::Digest;
use wire::faults::WriteFault;
use wire::records::{DigestValue, Request};
use wire::writing::write_batch;

// The digest of a batch: 0 if it is empty; more than 16 requests are refused.
pub fn batch_digest<D: Digest>(digest: &D, requests: &[Request]) -> Result<DigestValue, WriteFault>
    ensures { result ≡ digest_batch (D.value digest.now) requests.now }
{
    if requests.len() == 0 {
        return Ok(DigestValue::from(0));
    }
    let frame = write_batch(requests)?;
    Ok(digest.digest(frame.body()))
}

// Which of the 64 buckets a request is in.
pub fn bucket<D: Digest>(digest: &D, client: u8, timestamp: u32) -> u8
    ensures { result ≡ bucket_of (D.value digest.now) client timestamp }
{
    let [t0, t1, t2, t3] = timestamp.to_be_bytes();
    let value = digest.digest(&[t0, t1, t2, t3, client]);
    (value.number() % 64) as u8
}
