// What a controller keeps besides its digest and its application. All of it is plain and copied as a whole.
use quorum::house::House;
use table::records::Table;
use window::windows::Windows;

// The epoch, who leads in it, and which numbers it orders.
#[derive(Clone, Copy)]
pub struct View {
    pub epoch: u32,
    // the epoch is given up or not yet begun: nothing is proposed, prepared or committed. A flag, since all
    // else holds either way
    pub changing: bool,
    // the leader set: bit i for controller i, as a statement's digest holds it
    pub leaders: u64,
    // the epoch's numbers: from first on, up to last if there is one
    pub first: u64,
    pub last: Option<u64>,
}

#[derive(Clone, Copy)]
pub struct Core {
    // how many controllers there are, and which this one is
    pub house: House,
    pub view: View,
    pub table: Table,
    // the number up to which all is delivered
    pub delivered: u64,
    pub windows: Windows,
}

// What an accepted call answers: how many statements it put into the outbox, issued and forwarded, the
// first number that it delivered, 0 if none (no `Option`: numbers begin at 1, and hosts take the 0 as
// it is), and how many batches and requests.
#[derive(Clone, Copy, Default)]
pub struct Answer {
    pub issued: usize,
    pub forwarded: usize,
    pub first: u64,
    pub batches: usize,
    pub applied: usize,
    pub passed: usize,
}
