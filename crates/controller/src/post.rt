// Statements that a call sends, and where they go.
ghost use Rattle.std.specs.Prelude.{◌≡◌, ◌<◌, [], ◌∷◌, length};
ghost use Rattle.protocol.specs.Call.{unsealed};
ghost use Rattle.controller.specs.Agree.{said};
ghost use Rattle.controller.specs.Sending.{Sent};

use wire::kinds::Kind;
use wire::records::{DigestValue, Sealed, Statement};

// An outbox that is filled from its first place on. It is lent by the host, and what a call does not fill
// stays, so it is no `Vec`. How much room is left is a premise of each part, since each needs another.
#[derive(Drop)]
pub(crate) struct Post<'a> {
    pub(crate) outbox: &'a mut [Sealed],
    pub(crate) sent: usize,
}

impl<'a> Post<'a> {
    // Nothing is sent yet.
    pub(crate) fn new(outbox: &'a mut [Sealed]) -> Post<'a>
        ensures same_reference { result.outbox.ghost_name ≡ outbox.entry.ghost_name }
        ensures outbox { result.outbox.now ≡ outbox.old }
        ensures sent { result.sent ≡ 0 }
    {
        Post { outbox, sent: 0 }
    }

    pub(crate) fn push(&mut self, sealed: Sealed)
        requires { self.old.sent < length self.old.outbox.now }
        ensures { Sent self.old self.new (sealed ∷ []) }
    {
        self.outbox[self.sent] = sealed;
        self.sent += 1;
    }
}

// A statement that holds no epoch; the host seals it.
pub(crate) fn said(kind: Kind, signer: u8, epoch: u32, number: u64, digest: DigestValue) -> Sealed
    ensures { result ≡ unsealed (said kind signer epoch number digest) }
{
    Sealed {
        statement: Statement {
            kind,
            signer,
            epoch,
            number,
            held: 0,
            digest,
        },
        seal: 0,
    }
}
