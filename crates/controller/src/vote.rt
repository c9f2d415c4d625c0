// Vote: a prepare, a commit or a checkpoint is kept, and the q-th of its kind tells.
ghost use Rattle.std.specs.Prelude.{◌≡◌, ◌<◌, true, length};
ghost use Rattle.table.specs.Ballots.{just_backed};
ghost use Rattle.table.specs.Window.{in_window, place_at};
ghost use Rattle.protocol.specs.State.{size, enough, with_table};
ghost use Rattle.protocol.specs.Vote.{ballot_of, prepare_table, prepare_issued, checkpoint_table, vote_table, vote_issued};
ghost use Rattle.controller.specs.Agree.{Voted};

use crate::post::{Post, said};
use protocol::records::Core;
use table::records::Ballot;
use wire::kinds::Kind;
use wire::records::{DigestValue, Sealed};

fn ballot_of(vote: &Sealed) -> Ballot
    ensures { result ≡ ballot_of vote.now }
{
    Ballot {
        digest: vote.statement.digest,
        seal: vote.seal,
    }
}

// Whether just a quorum prepared a digest at a number.
fn is_prepared(core: &Core, s: u64, digest: &DigestValue) -> bool
    requires { in_window core.now.table s ≡ true }
    ensures { result ≡ just_backed (size core.now) (enough core.now) digest.now (place_at core.now.table s).prepares }
{
    core.table.place(s).is_some_and(|place| {
        place.prepares.just_backed(core.house.threshold(), digest)
    })
}

// The q-th prepare makes the certificate, and a commit is issued.
fn accept_prepare(core: &mut Core, vote: &Sealed, post: &mut Post<'_>)
    requires placed { in_window core.old.table vote.now.statement.number ≡ true }
    requires room { post.old.sent < length post.old.outbox.now }
    ensures { Voted core.old (prepare_table core.old vote.now) (prepare_issued core.old vote.now) post.old core.new post.new }
{
    let st = vote.statement;
    core.table.prepare(st.number, st.signer, ballot_of(vote));
    if is_prepared(core, st.number, &st.digest) {
        core.table.certify(st.number, core.view.epoch, st.digest);
        post.push(said(
            Kind::Commit,
            core.house.own(),
            core.view.epoch,
            st.number,
            st.digest,
        ));
    }
}

// The q-th equal checkpoint makes its number stable.
fn accept_checkpoint(core: &mut Core, vote: &Sealed)
    ensures { core.new ≡ with_table core.old (checkpoint_table core.old vote.now) }
{
    let st = vote.statement;
    core.table.checkpoint(st.number, st.signer, ballot_of(vote));
    let row = *core.table.row(st.number);
    if row.just_backed(core.house.threshold(), &st.digest) {
        core.table.move_to(st.number, row.backers(&st.digest));
    }
}

pub(crate) fn accept_vote(core: &mut Core, vote: &Sealed, post: &mut Post<'_>)
    requires placed { in_window core.old.table vote.now.statement.number ≡ true }
    requires room { post.old.sent < length post.old.outbox.now }
    ensures { Voted core.old (vote_table core.old vote.now) (vote_issued core.old vote.now) post.old core.new post.new }
{
    let st = vote.statement;
    match st.kind {
        Kind::Prepare => accept_prepare(core, vote, post),
        Kind::Commit => core.table.commit(st.number, st.signer, ballot_of(vote)),
        _ => accept_checkpoint(core, vote),
    }
}
