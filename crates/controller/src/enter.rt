// Enter: a primary begins an epoch with a dossier.
ghost use Rattle.std.specs.Prelude.{◌≡◌, ◌+◌, ◌<◌, ◌≤◌, map, length};
ghost use Rattle.table.specs.Ballots.{listed};
ghost use Rattle.protocol.specs.Call.{unsealed};
ghost use Rattle.protocol.specs.Enter.{as_vote, choices, prepares_chosen};
ghost use Rattle.controller.specs.Sound.{Sound};
ghost use Rattle.controller.specs.Sending.{Sent};
ghost use Rattle.controller.specs.Agree.{enter_core, enter_issued};

use crate::post::{Post, said};
use dossier::parts::Opened;
use protocol::records::{Core, View};
use std::array;
use table::records::{Vote, Votes};
use wire::kinds::Kind;
use wire::records::{DigestValue, Sealed};

// Checkpoints as votes.
fn votes_of(checkpoints: &[Sealed]) -> Votes
    requires { length checkpoints.now ≤ 16 }
    ensures { result ≡ listed (map as_vote checkpoints.now) }
{
    let mut votes = Votes::new();
    for x in checkpoints {
        votes.push(Vote {
            signer: x.statement.signer,
            digest: x.statement.digest,
            seal: x.seal,
        });
    }
    votes
}

// What a dossier chooses for the 32 numbers from s on.
fn choices(opened: &Opened, s: u64) -> [Option<DigestValue>; 32]
    requires { s ≤ 1000000000001 }
    ensures { result ≡ choices opened.now s 32 }
{
    array::from_fn(|k| opened.chosen(s + k as u64))
}

// A prepare for each number that has a choice, from s on.
fn issue_prepares(
    signer: u8,
    epoch: u32,
    s: u64,
    chosen: &[Option<DigestValue>; 32],
    post: &mut Post<'_>,
)
    requires low { s ≤ 1000000000001 }
    requires room { post.old.sent + 32 ≤ length post.old.outbox.now }
    ensures { Sent post.old post.new (map unsealed (prepares_chosen signer epoch s chosen.now)) }
{
    for (i, choice) in chosen.iter().enumerate() {
        if let Some(digest) = *choice {
            post.push(said(Kind::Prepare, signer, epoch, s + i as u64, digest));
        }
    }
}

// The epoch begins.
pub(crate) fn accept_enter(
    core: &mut Core,
    new: &Sealed,
    records: &[Sealed],
    opened: &Opened,
    post: &mut Post<'_>,
)
    requires sound { Sound core.old }
    requires low { opened.now.base ≤ 1000000000000 }
    requires room { post.old.sent + 32 ≤ length post.old.outbox.now }
    ensures core { core.new ≡ enter_core core.old new.now records.now opened.now }
    ensures post { Sent post.old post.new (map unsealed (enter_issued core.old new.now records.now opened.now)) }
{
    let st = new.statement;
    let proof = votes_of(opened.checkpoints(records, core.house.quorum()));
    core.table.move_to(opened.base, proof);
    let s = core.table.stable + 1;
    let chosen = choices(opened, s);
    issue_prepares(core.house.own(), st.epoch, s, &chosen, post);
    core.table.enter(&chosen);
    core.view = View {
        epoch: st.epoch,
        changing: false,
        leaders: st.digest.number(),
        first: opened.base + 1,
        last: Some(opened.base + 32),
    };
}
