// Reading frames: from the front of a slice, with what is left, and alone.
ghost use Rattle.std.specs.Prelude.{◌≡◌, ◌*◌, ◌≤◌, Ok, length};
ghost use Rattle.wire.specs.Frames.{header_of, sealed_at, sealed_after, take_sealed, read_sealed, request_at, requests_in, stored, batch_rest, batch_after, take_batch, read_batch, alone, Reads};

use crate::bytes::{number4, number8};
use crate::faults::FrameFault;
use crate::kinds::{BATCH, Kind};
use crate::records::{Batch, DigestValue, Request, Sealed, Statement};

// What a frame opens with: the length of what follows, the version and the kind byte, which may be a batch's.
#[derive(Clone, Copy, PartialEq, Eq, Debug)]
pub(crate) struct Header {
    long: u16,
    version: u8,
    kind: u8,
}

// The header of a frame, and what follows it.
fn take_header(bytes: &[u8]) -> Result<(Header, &[u8]), FrameFault>
    ensures { Reads result (header_of bytes.now) }
{
    match bytes {
        [l0, l1, version, kind, rest @ ..] => {
            let header = Header {
                long: u16::from_be_bytes([*l0, *l1]),
                version: *version,
                kind: *kind,
            };
            Ok((header, rest))
        }
        [_, _, 1] => Err(FrameFault { place: 3 }),
        _ => Err(FrameFault { place: 2 }),
    }
}

// What stands alone: bytes after it are a fault of the length.
fn alone<T: Drop>(value: T, left: &[u8]) -> Result<T, FrameFault>
    ensures { result ≡ alone (Ok (value, left.now)) }
{
    if left.len() != 0 {
        return Err(FrameFault { place: 0 });
    }
    Ok(value)
}

// By the byte of the kind, the fields after it, and the seal.
fn sealed_at(kind: u8, fields: &[u8; 33]) -> Sealed
    ensures { result ≡ sealed_at kind fields.now }
{
    let statement = Statement {
        kind: Kind::from(kind),
        signer: fields[0],
        epoch: number4(fields, 1),
        number: number8(fields, 5),
        held: number4(fields, 13),
        digest: DigestValue::from(number8(fields, 17)),
    };
    Sealed {
        statement,
        seal: number8(fields, 25),
    }
}

// What follows the header of a sealed statement's frame.
fn sealed_after(header: Header, body: &[u8]) -> Result<(Sealed, &[u8]), FrameFault>
    ensures { Reads result (sealed_after header.long header.version header.kind body.now) }
{
    if header.version != 1 {
        return Err(FrameFault { place: 2 });
    }
    if let Kind::Unknown(_) = Kind::from(header.kind) {
        return Err(FrameFault { place: 3 });
    }
    if header.long != 35 {
        return Err(FrameFault { place: 0 });
    }
    let Some((fields, rest)) = body.split_first_chunk::<33>() else {
        return Err(FrameFault {
            place: 4 + body.len(),
        });
    };
    Ok((sealed_at(header.kind, fields), rest))
}

// A sealed statement from the front of `bytes`, and the bytes after it. What it shares with a batch's are the header
// and `alone`; one reader for both would take the rest as a closure and say no more.
pub fn take_sealed(bytes: &[u8]) -> Result<(Sealed, &[u8]), FrameFault>
    ensures { Reads result (take_sealed bytes.now) }
{
    let (header, body) = take_header(bytes)?;
    sealed_after(header, body)
}

// The sealed statement that `bytes` are the frame of.
pub fn read_sealed(bytes: &[u8]) -> Result<Sealed, FrameFault>
    ensures { result ≡ read_sealed bytes.now }
{
    let (sealed, left) = take_sealed(bytes)?;
    alone(sealed, left)
}

pub(crate) const NO_REQUEST: Request = Request {
    client: 0,
    timestamp: 0,
    payload: 0,
    seal: 0,
};

// The request in 21 bytes.
fn request_at(bytes: &[u8; 21]) -> Request
    ensures { result ≡ request_at bytes.now }
{
    let [
        client,
        t0,
        t1,
        t2,
        t3,
        p0,
        p1,
        p2,
        p3,
        p4,
        p5,
        p6,
        p7,
        s0,
        s1,
        s2,
        s3,
        s4,
        s5,
        s6,
        s7,
    ] = *bytes;
    Request {
        client,
        timestamp: u32::from_be_bytes([t0, t1, t2, t3]),
        payload: u64::from_be_bytes([p0, p1, p2, p3, p4, p5, p6, p7]),
        seal: u64::from_be_bytes([s0, s1, s2, s3, s4, s5, s6, s7]),
    }
}

fn requests_in(count: u8, body: &[u8]) -> Batch
    requires few { count ≤ 16 }
    requires long { 21 * count ≤ length body.now }
    ensures { result ≡ stored (requests_in count body.now) }
{
    let mut requests = [NO_REQUEST; 16];
    let (blocks, _) = body.as_chunks::<21>();
    for (i, block) in blocks[0..usize::from(count)].iter().enumerate() {
        requests[i] = request_at(block);
    }
    Batch { count, requests }
}

// What follows the count of a batch's frame.
fn batch_rest(long: u16, count: u8, rest: &[u8]) -> Result<(Batch, &[u8]), FrameFault>
    ensures { Reads result (batch_rest long count rest.now) }
{
    if count > 16 {
        return Err(FrameFault { place: 4 });
    }
    let size = 21 * usize::from(count);
    if usize::from(long) != 3 + size {
        return Err(FrameFault { place: 0 });
    }
    if rest.len() < size {
        return Err(FrameFault {
            place: 5 + rest.len(),
        });
    }
    Ok((requests_in(count, rest), &rest[size..]))
}

// What follows the header of a batch's frame.
fn batch_after(header: Header, body: &[u8]) -> Result<(Batch, &[u8]), FrameFault>
    ensures { Reads result (batch_after header.long header.version header.kind body.now) }
{
    if header.version != 1 {
        return Err(FrameFault { place: 2 });
    }
    if header.kind != BATCH {
        return Err(FrameFault { place: 3 });
    }
    match body {
        [count, rest @ ..] => batch_rest(header.long, *count, rest),
        [] => Err(FrameFault { place: 4 }),
    }
}

// A batch from the front of `bytes`, and the bytes after it.
pub fn take_batch(bytes: &[u8]) -> Result<(Batch, &[u8]), FrameFault>
    ensures { Reads result (take_batch bytes.now) }
{
    let (header, body) = take_header(bytes)?;
    batch_after(header, body)
}

// The batch that `bytes` are the frame of.
pub fn read_batch(bytes: &[u8]) -> Result<Batch, FrameFault>
    ensures { result ≡ read_batch bytes.now }
{
    let (batch, left) = take_batch(bytes)?;
    alone(batch, left)
}
