// Give up: the epoch is left, and all that the next one must know is told.
ghost use Rattle.std.specs.Prelude.{◌≡◌, ◌+◌, ◌≤◌, ◌++◌, map, length};
ghost use Rattle.protocol.specs.Call.{unsealed};
ghost use Rattle.protocol.specs.Change.{held_for, helds_from, prepares_from, evidence};
ghost use Rattle.controller.specs.Sound.{held_votes, Few, Sound};
ghost use Rattle.controller.specs.Sending.{Sent};
ghost use Rattle.controller.specs.Agree.{spoken, told, give_up_core};

use crate::post::{Post, said};
use protocol::records::Core;
use table::records::{Certificate, Place, Vote};
use wire::kinds::Kind;
use wire::records::{DigestValue, Sealed, Statement};

// What is held of a number.
fn held(signer: u8, target: u32, number: u64, certificate: &Option<Certificate>) -> Sealed
    ensures { result ≡ unsealed (held_for signer target number certificate.now) }
{
    let (epoch, digest) = certificate
        .as_ref()
        .map_or((0, DigestValue::from(0)), |k| (k.epoch, k.digest));
    Sealed {
        statement: Statement {
            kind: Kind::Held,
            signer,
            epoch: target,
            number,
            held: epoch,
            digest,
        },
        seal: 0,
    }
}

// Tells what is held of each place, the first of which is that of base + 1.
fn tell_helds(places: &[Place; 32], signer: u8, target: u32, base: u64, post: &mut Post<'_>)
    requires low { base ≤ 1000000000000 }
    requires room { post.old.sent + 32 ≤ length post.old.outbox.now }
    ensures sent { Sent post.old post.new (map unsealed (helds_from signer target (base + 1) places.now)) }
    ensures long { length places.now ≡ 32 }
{
    for (i, place) in places.iter().enumerate() {
        post.push(held(signer, target, base + 1 + i as u64, &place.certificate));
    }
}

// A vote as the statement that it was.
fn spoken(kind: Kind, epoch: u32, number: u64, vote: &Vote) -> Sealed
    ensures { result ≡ spoken kind epoch number vote.now }
{
    Sealed {
        statement: Statement {
            kind,
            signer: vote.signer,
            epoch,
            number,
            held: 0,
            digest: vote.digest,
        },
        seal: vote.seal,
    }
}

// Forwards votes.
fn show_votes(kind: Kind, epoch: u32, number: u64, votes: &[Vote], post: &mut Post<'_>)
    requires { post.old.sent + length votes.now ≤ length post.old.outbox.now }
    ensures { Sent post.old post.new (map (spoken kind epoch number) votes.now) }
{
    for vote in votes {
        post.push(spoken(kind, epoch, number, vote));
    }
}

// Forwards the prepares of each certificate.
fn show_certificates(places: &[Place; 32], base: u64, post: &mut Post<'_>)
    requires few { (base ≤ 1000000000000) × Few places.now }
    requires room { post.old.sent + 352 ≤ length post.old.outbox.now }
    ensures { Sent post.old post.new (prepares_from (base + 1) places.now) }
{
    for (i, place) in places.iter().enumerate() {
        if let Some(held) = &place.certificate {
            let number = base + 1 + i as u64;
            show_votes(
                Kind::Prepare,
                held.epoch,
                number,
                held.prepares.as_slice(),
                post,
            );
        }
    }
}

// Tells the stable number, and what is held of each place.
fn tell(core: &Core, target: u32, post: &mut Post<'_>)
    requires low { core.now.table.stable ≤ 1000000000000 }
    requires room { post.old.sent + 33 ≤ length post.old.outbox.now }
    ensures sent { Sent post.old post.new (map unsealed (told core.now target)) }
    ensures long { length core.now.table.places ≡ 32 }
{
    let base = core.table.stable;
    let signer = core.house.own();
    let nothing = DigestValue::from(0);
    post.push(said(Kind::Stable, signer, target, base, nothing));
    tell_helds(&core.table.places, signer, target, base, post);
}

// Forwards the evidence: the checkpoints behind the stable number, and each certificate's prepares.
fn show(core: &Core, post: &mut Post<'_>)
    requires sound { Sound core.now }
    requires room { post.old.sent + 363 ≤ length post.old.outbox.now }
    ensures { Sent post.old post.new (evidence core.now.table) }
{
    let base = core.table.stable;
    let proof = core.table.proof.as_slice();
    show_votes(Kind::Checkpoint, 0, base, proof, post);
    show_certificates(&core.table.places, base, post);
}

// Tells and shows all for an epoch, and leaves for it. Answers how many statements are forwarded; 33
// are issued.
pub(crate) fn accept_give_up(core: &mut Core, epoch: u32, post: &mut Post<'_>) -> usize
    requires sound { Sound core.old }
    requires room { post.old.sent + 396 ≤ length post.old.outbox.now }
    requires next { epoch ≡ core.old.view.epoch + 1 }
    ensures core { core.new ≡ give_up_core core.old }
    ensures value { result ≡ length (evidence core.old.table) }
    ensures long { length (told core.old epoch) ≡ 33 }
    ensures post { Sent post.old post.new (map unsealed (told core.old epoch) ++ evidence core.old.table) }
{
    tell(core, epoch, post);
    let issued = post.sent;
    show(core, post);
    core.view.epoch = epoch;
    core.view.changing = true;
    post.sent - issued
}
