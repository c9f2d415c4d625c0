// Delivery: each next number that is committed with a known batch.
ghost use Rattle.std.specs.Prelude.{◌≡◌, ◌+◌, ◌<◌, ◌≤◌, [], map, length};
ghost use Rattle.wire.specs.Frames.{requests_of};
ghost use Rattle.protocol.specs.State.{size, own, enough};
ghost use Rattle.protocol.specs.Call.{unsealed};
ghost use Rattle.protocol.specs.Delivery.{known, ready, deliver_one, deliver_ready, begin};
ghost use Rattle.controller.specs.Sending.{Sent};
ghost use Rattle.controller.specs.Agree.{due, Reached, Small, Begun, More};

use crate::post::{Post, said};
use crate::progress::Progress;
use application::interface::Application;
use protocol::records::Core;
use window::delivery::deliver;
use wire::kinds::Kind;
use wire::records::{Batch, DigestValue, Sealed};

// The batch that can be delivered next.
fn ready_batch(core: &Core) -> Option<Batch>
    requires { core.now.delivered ≤ 1000000000032 }
    ensures { known result ≡ ready (size core.now) (enough core.now) core.now.table core.now.delivered }
{
    let place = core.table.place(core.delivered + 1)?;
    let digest = place.proposal?;
    if !place.commits.backed(core.house.threshold(), &digest) {
        return None;
    }
    place.batch
}

// Issues a checkpoint if one is due at what is delivered.
fn checkpoint(core: &Core, mark: u64, post: &mut Post<'_>)
    requires { post.old.sent < length post.old.outbox.now }
    ensures { Sent post.old post.new (map unsealed (due (own core.now) core.now.delivered mark)) }
{
    if core.delivered % 16 == 0 {
        post.push(said(
            Kind::Checkpoint,
            core.house.own(),
            0,
            core.delivered,
            DigestValue::from(mark),
        ));
    }
}

// Delivers the batch of the next number.
pub(crate) fn deliver_one<P: Application>(
    core: &mut Core,
    app: &mut P,
    batch: &Batch,
    post: &mut Post<'_>,
    so_far: Progress,
) -> Progress
    requires low { core.old.delivered ≤ 1000000000032 }
    requires room { post.old.sent < length post.old.outbox.now }
    requires small { Small so_far }
    ensures reached { Reached core.old post.old so_far (deliver_one P.next P.marked (own core.old) (begin P.next P.marked core.old app.old []) (requests_of batch.now)) core.new app.new post.new result }
    ensures more { More so_far result }
    ensures sent { post.new.sent ≤ post.old.sent + 1 }
{
    let tally = deliver(app, &mut core.windows, batch.as_slice());
    core.delivered += 1;
    checkpoint(core, app.mark(), post);
    Progress {
        batches: so_far.batches + 1,
        applied: so_far.applied + tally.applied,
        passed: so_far.passed + tally.passed,
    }
}

// Delivers what is ready: at most 32 batches, since a number that is ready has a place. It is asked anew each
// time, since a delivery changes what is next.
pub(crate) fn deliver_ready<P: Application>(
    core: &mut Core,
    app: &mut P,
    post: &mut Post<'_>,
    so_far: Progress,
) -> Progress
    requires stable { core.old.table.stable ≤ 1000000000000 }
    requires low { core.old.delivered ≤ 1000000000032 }
    requires room { post.old.sent + 32 ≤ length post.old.outbox.now }
    requires begun { Begun so_far }
    ensures reached { Reached core.old post.old so_far (deliver_ready P.next P.marked 32 core.old (begin P.next P.marked core.old app.old [])) core.new app.new post.new result }
    ensures low { core.new.delivered ≤ 1000000000032 }
{
    let mut progress = so_far;
    while let Some(batch) = ready_batch(core) {
        progress = deliver_one(core, app, &batch, post, progress);
    }
    progress
}
