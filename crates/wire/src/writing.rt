// Writing frames.
ghost use Rattle.std.specs.Prelude.{◌≡◌, ◌+◌, ◌*◌, ◌≤◌, length};
ghost use Rattle.std.specs.List.{flat_map};
ghost use Rattle.wire.specs.Bytes.{put_over};
ghost use Rattle.wire.specs.Frames.{sealed_frame, write_sealed, request_bytes, batch_head, write_batch};

use crate::bytes::put;
use crate::faults::WriteFault;
use crate::frame::BatchFrame;
use crate::kinds::{BATCH, Kind};
use crate::records::{Request, Sealed};

fn sealed_frame(s: &Sealed) -> [u8; 37]
    ensures { result ≡ sealed_frame s.now }
{
    let st = &s.statement;
    let [e0, e1, e2, e3] = st.epoch.to_be_bytes();
    let [n0, n1, n2, n3, n4, n5, n6, n7] = st.number.to_be_bytes();
    let [h0, h1, h2, h3] = st.held.to_be_bytes();
    let [d0, d1, d2, d3, d4, d5, d6, d7] = st.digest.word.to_be_bytes();
    let [s0, s1, s2, s3, s4, s5, s6, s7] = s.seal.to_be_bytes();
    let kind = u8::from(st.kind);
    [
        0, 35, 1, kind, st.signer, e0, e1, e2, e3, n0, n1, n2, n3, n4, n5, n6, n7, h0, h1, h2, h3,
        d0, d1, d2, d3, d4, d5, d6, d7, s0, s1, s2, s3, s4, s5, s6, s7,
    ]
}

// The frame of a sealed statement; a kind that no statement has is refused.
pub fn write_sealed(s: &Sealed) -> Result<[u8; 37], WriteFault>
    ensures { result ≡ write_sealed s.now }
{
    match s.statement.kind {
        Kind::Unknown(byte) => Err(WriteFault::UnknownKind(byte)),
        _ => Ok(sealed_frame(s)),
    }
}

fn request_bytes(r: &Request) -> [u8; 21]
    ensures { result ≡ request_bytes r.now }
{
    let [t0, t1, t2, t3] = r.timestamp.to_be_bytes();
    let [p0, p1, p2, p3, p4, p5, p6, p7] = r.payload.to_be_bytes();
    let [s0, s1, s2, s3, s4, s5, s6, s7] = r.seal.to_be_bytes();
    [
        r.client, t0, t1, t2, t3, p0, p1, p2, p3, p4, p5, p6, p7, s0, s1, s2, s3, s4, s5, s6, s7,
    ]
}

// The requests one after another, over what stands from place 5 on.
fn put_requests(bytes: &mut [u8], requests: &[Request])
    requires { 5 + 21 * length requests.now ≤ length bytes.old }
    ensures { bytes.new ≡ put_over bytes.old 5 (flat_map request_bytes requests.now) }
{
    for (i, r) in requests.iter().enumerate() {
        put(bytes, 5 + 21 * i, &request_bytes(r));
    }
}

// Length, version, kind and count.
fn batch_head(count: u8) -> [u8; 5]
    requires { count ≤ 16 }
    ensures { result ≡ batch_head count }
{
    let [high, low] = (3 + 21 * u16::from(count)).to_be_bytes();
    [high, low, 1, BATCH, count]
}

// The frame of a batch; more than 16 requests are refused.
pub fn write_batch(requests: &[Request]) -> Result<BatchFrame, WriteFault>
    ensures { result ≡ write_batch requests.now }
{
    let count = requests.len();
    if count > 16 {
        return Err(WriteFault::TooMany(count));
    }
    let mut bytes = [0; 341];
    put(&mut bytes, 0, &batch_head(count as u8));
    put_requests(&mut bytes, requests);
    Ok(BatchFrame {
        length: 5 + 21 * count,
        bytes,
    })
}
