// A batch in its record and in its buffer, as slices.
ghost use Rattle.std.specs.Prelude.{◌≡◌, ◌≤◌, min, [], ◌++◌, length, drop};
ghost use Rattle.wire.specs.Frames.{stored, requests_of, store_batch, frame_bytes, body_bytes};

use crate::faults::WriteFault;
use crate::frame::BatchFrame;
use crate::reading::NO_REQUEST;
use crate::records::{Batch, Request};

// The requests over the first places.
fn place_first(places: &mut [Request], requests: &[Request])
    requires { length requests.now ≤ length places.old }
    ensures { places.new ≡ requests.now ++ drop (length requests.now) places.old }
{
    places[0..requests.len()].copy_from_slice(requests);
}

impl Batch {
    // The empty batch.
    pub fn new() -> Batch
        ensures { result ≡ stored [] }
    {
        Batch {
            count: 0,
            requests: [NO_REQUEST; 16],
        }
    }

    // The batch of these requests; more than 16 are refused.
    pub fn from_slice(requests: &[Request]) -> Result<Batch, WriteFault>
        ensures { result ≡ store_batch requests.now }
    {
        let count = requests.len();
        if count > 16 {
            return Err(WriteFault::TooMany(count));
        }
        let mut places = [NO_REQUEST; 16];
        place_first(&mut places, requests);
        Ok(Batch {
            count: count as u8,
            requests: places,
        })
    }

    pub fn as_slice(&self) -> &[Request]
        ensures { result.now ≡ requests_of self.now }
    {
        let count = usize::from(self.count).min(16);
        &self.requests[0..count]
    }
}

impl BatchFrame {
    pub fn as_bytes(&self) -> &[u8]
        ensures { result.now ≡ frame_bytes self.now }
    {
        let end = self.length.min(341);
        &self.bytes[0..end]
    }

    // From the count byte on: what the batch's digest is taken of.
    pub fn body(&self) -> &[u8]
        ensures { result.now ≡ body_bytes self.now }
    {
        let all = self.as_bytes();
        let from = all.len().min(4);
        &all[from..]
    }
}
