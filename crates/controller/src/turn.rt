// Turn: the next epoch begins where all is delivered.
ghost use Rattle.std.specs.Prelude.{◌≡◌, ◌+◌, ◌≤◌};
ghost use Rattle.protocol.specs.Change.{after_last, turned};
ghost use Rattle.controller.specs.Agree.{turn_core};

use protocol::leaders::{all_of, with_primary};
use protocol::records::{Core, View};
use quorum::house::House;

// The next epoch, where all leaders have no last number and others 32 numbers.
fn turned(view: &View, house: &House, epoch: u32) -> View
    requires { (epoch ≡ view.now.epoch + 1) × (after_last view.now.last ≤ 1000000000033) }
    ensures { result ≡ turned house.now.n view.now }
{
    let leaders = with_primary(house, view.leaders, epoch);
    let first = view.last.map_or(1, |last| last + 1);
    View {
        epoch,
        changing: false,
        leaders,
        first,
        last: (leaders != all_of(house)).then_some(first + 31),
    }
}

pub(crate) fn accept_turn(core: &mut Core, epoch: u32)
    requires { (epoch ≡ core.old.view.epoch + 1) × (after_last core.old.view.last ≤ 1000000000033) }
    ensures { core.new ≡ turn_core core.old }
{
    core.view = turned(&core.view, &core.house, epoch);
    core.table.enter(&[None; 32]);
}
