// Offer: a leader's batch fills its number's place, and a prepare is issued.
ghost use Rattle.std.specs.Prelude.{◌≡◌, ◌<◌, Some, [], ◌∷◌, length};
ghost use Rattle.table.specs.Window.{fill_at};
ghost use Rattle.protocol.specs.State.{own, with_table};
ghost use Rattle.protocol.specs.Call.{unsealed};
ghost use Rattle.protocol.specs.Offer.{prepare_of};
ghost use Rattle.controller.specs.Sending.{Sent};

use crate::post::{Post, said};
use protocol::records::Core;
use wire::kinds::Kind;
use wire::records::{Batch, Sealed};

pub(crate) fn accept_offer(core: &mut Core, proposal: &Sealed, batch: Batch, post: &mut Post<'_>)
    requires { post.old.sent < length post.old.outbox.now }
    ensures core { core.new ≡ with_table core.old (fill_at core.old.table proposal.now.statement.number proposal.now.statement.digest (Some batch)) }
    ensures post { Sent post.old post.new (unsealed (prepare_of (own core.old) core.old.view.epoch proposal.now.statement.number proposal.now.statement.digest) ∷ []) }
{
    let st = proposal.statement;
    core.table.fill(st.number, st.digest, Some(batch));
    post.push(said(
        Kind::Prepare,
        core.house.own(),
        core.view.epoch,
        st.number,
        st.digest,
    ));
}
