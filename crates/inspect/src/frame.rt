// What a line's bytes are.
ghost use Rattle.std.specs.Prelude.{◌≡◌};
ghost use Rattle.inspect.specs.Frame.{frame_in};

use wire::faults::FrameFault;
use wire::kinds::BATCH;
use wire::reading::{read_batch, read_sealed};
use wire::records::{Batch, Sealed};

#[derive(Clone, Copy)]
pub enum Frame {
    Statement(Sealed),
    Requests(Batch),
}

// A batch where the kind byte says so, else a sealed statement.
pub(crate) fn frame_in(bytes: &[u8]) -> Result<Frame, FrameFault>
    ensures { result ≡ frame_in bytes.now }
{
    match bytes {
        [_, _, _, BATCH, ..] => read_batch(bytes).map(Frame::Requests),
        _ => read_sealed(bytes).map(Frame::Statement),
    }
}
