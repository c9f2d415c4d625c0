// The kinds of statements, each with the byte that stands for it in a frame.
ghost use Rattle.std.specs.Prelude.{◌≡◌, Some};
ghost use Rattle.wire.specs.Kinds.{kind_of, byte_of, name_of};

use std::fmt;

#[derive(Clone, Copy, PartialEq, Eq, Debug)]
pub enum Kind {
    // None of the others, so that a record of it can be expressed and refused: it has no frame.
    Unknown(u8),
    // A client asks for an order: number = timestamp, digest = payload.
    Request,
    // A leader proposes a batch for a number.
    Proposal,
    // A controller has accepted a proposal.
    Prepare,
    // A controller has seen a quorum of prepares.
    Commit,
    // A controller has delivered up to a number: digest = the application's mark there.
    Checkpoint,
    // In an epoch change: the stable number of a controller.
    Stable,
    // In an epoch change: the latest certificate of a controller at a number.
    Held,
    // A primary begins an epoch: digest = the leader set, bit i for controller i.
    New,
}

// The kind byte of a batch's frame; no statement has it.
pub const BATCH: u8 = 9;

impl From<u8> for Kind {
    ghost from_gives = { λ byte kind. kind ≡ kind_of byte };

    fn from(byte: u8) -> Kind {
        match byte {
            1 => Kind::Request,
            2 => Kind::Proposal,
            3 => Kind::Prepare,
            4 => Kind::Commit,
            5 => Kind::Checkpoint,
            6 => Kind::Stable,
            7 => Kind::Held,
            8 => Kind::New,
            _ => Kind::Unknown(byte),
        }
    }
}

impl From<Kind> for u8 {
    ghost from_gives = { λ kind byte. byte ≡ byte_of kind };

    fn from(kind: Kind) -> u8 {
        match kind {
            Kind::Request => 1,
            Kind::Proposal => 2,
            Kind::Prepare => 3,
            Kind::Commit => 4,
            Kind::Checkpoint => 5,
            Kind::Stable => 6,
            Kind::Held => 7,
            Kind::New => 8,
            Kind::Unknown(byte) => byte,
        }
    }
}

impl fmt::Display for Kind {
    ghost output = { λ kind. Some (name_of kind) };

    fn fmt<W: fmt::Write>(&self, f: &mut fmt::Formatter<W>) -> fmt::Result {
        f.write_str(match self {
            Kind::Request => "request",
            Kind::Proposal => "proposal",
            Kind::Prepare => "prepare",
            Kind::Commit => "commit",
            Kind::Checkpoint => "checkpoint",
            Kind::Stable => "stable",
            Kind::Held => "held",
            Kind::New => "new",
            Kind::Unknown(_) => "unknown",
        })
    }
}
