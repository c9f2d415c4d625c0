// A core at its start.
ghost use Rattle.std.specs.Prelude.{◌≡◌};
ghost use Rattle.protocol.specs.State.{new_core};

use crate::leaders::all_of;
use crate::records::{Core, View};
use quorum::house::House;
use table::records::Table;
use window::windows::Windows;

impl Core {
    pub fn new(house: House) -> Core
        ensures { result ≡ new_core house }
    {
        Core {
            house,
            view: View {
                epoch: 1,
                changing: false,
                leaders: all_of(&house),
                first: 1,
                last: None,
            },
            table: Table::new(),
            delivered: 0,
            windows: Windows::new(),
        }
    }
}
