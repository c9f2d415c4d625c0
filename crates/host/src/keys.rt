// Exercise seals, for simulations only. This is no signature: whoever has the secret can seal in
// everybody's name, and FNV-1a is no cryptographic hash.
ghost use Rattle.std.specs.Prelude.{◌≡◌};
ghost use Rattle.wire.specs.Frames.{statement_bytes};
ghost use Rattle.digest.specs.Fnv.{fnv_from};
ghost use Rattle.host.specs.Keys.{party_number, party_of, key_of, tag_of, sealed_by, accepted_by};

use digest::fnv::{absorb, absorb_all, offset_basis};
use seal::checker::SealChecker;
use wire::kinds::Kind;
use wire::records::{Sealed, Statement};

// All parties' keys at once: each is derived from the one secret.
#[derive(Clone, Copy)]
pub struct Keyring {
    secret: u64,
}

// Who seals a statement.
#[derive(Clone, Copy)]
enum Party {
    Controller = 0,
    Client = 1,
}

impl Party {
    // Who seals a kind.
    fn of(kind: Kind) -> Party
        ensures { party_number result ≡ party_of kind }
    {
        if kind == Kind::Request {
            return Party::Client;
        }
        Party::Controller
    }
}

// The statement's 26 bytes, after what was hashed before.
fn absorb_statement(hash: u64, st: &Statement) -> u64
    ensures { result ≡ fnv_from hash (statement_bytes st.now) }
{
    let said = absorb(absorb(hash, u8::from(st.kind)), st.signer);
    let epoch = absorb_all(said, &st.epoch.to_be_bytes());
    let number = absorb_all(epoch, &st.number.to_be_bytes());
    let held = absorb_all(number, &st.held.to_be_bytes());
    absorb_all(held, &st.digest.word.to_be_bytes())
}

impl Keyring {
    pub fn new(secret: u64) -> Keyring
        ensures { result.secret ≡ secret }
    {
        Keyring { secret }
    }

    // The key of one party.
    fn key(&self, party: Party, signer: u8) -> u64
        ensures { result ≡ key_of self.now.secret (party_number party) signer }
    {
        let secret = absorb_all(offset_basis(), &self.secret.to_be_bytes());
        absorb(absorb(secret, party as u8), signer)
    }

    // The seal of a statement by its signer.
    #[tactic(auto, unfolding(crate::specs::Keys::tag_of))]
    pub fn tag(&self, st: &Statement) -> u64
        ensures { result ≡ tag_of self.now.secret st.now }
    {
        let key = self.key(Party::of(st.kind), st.signer);
        absorb_statement(absorb_all(offset_basis(), &key.to_be_bytes()), st)
    }

    // The statement under its signer's seal.
    pub fn sealed(&self, st: Statement) -> Sealed
        ensures { result ≡ sealed_by self.now.secret st }
    {
        Sealed {
            statement: st,
            seal: self.tag(&st),
        }
    }
}

impl SealChecker for Keyring {
    ghost accepts = { λ k st seal. accepted_by k.secret st seal };

    fn genuine(&self, st: &Statement, seal: u64) -> bool {
        seal == self.tag(st)
    }
}
