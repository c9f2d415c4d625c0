// How many lines, frames of each kind, and faults there were.
ghost use Rattle.std.specs.Prelude.{◌≡◌};
ghost use Rattle.inspect.specs.Account.{raised, counted};

use crate::frame::Frame;
use wire::faults::FrameFault;
use wire::kinds::BATCH;

#[derive(Clone, Copy, Default)]
pub struct Account {
    pub lines: u64,
    // lines that were no hexadecimal
    pub unread: u64,
    // frames by the byte of their kind; row 0 counts faults
    pub rows: [u64; 10],
}

impl Account {
    // One line more; its number.
    pub(crate) fn next_line(&mut self) -> u64
        ensures value { result ≡ raised self.old.lines }
        ensures after { self.new ≡ record { lines = raised self.old.lines; unread = self.old.unread; rows = self.old.rows } }
    {
        self.lines = self.lines.saturating_add(1);
        self.lines
    }

    pub(crate) fn count_unread(&mut self)
        ensures { self.new ≡ record { lines = self.old.lines; unread = raised self.old.unread; rows = self.old.rows } }
    {
        self.unread = self.unread.saturating_add(1);
    }

    pub(crate) fn count(&mut self, frame: &Result<Frame, FrameFault>)
        ensures { self.new ≡ counted self.old frame.now }
    {
        let row = match frame {
            Ok(Frame::Statement(sealed)) => usize::from(u8::from(sealed.statement.kind)),
            Ok(Frame::Requests(_)) => usize::from(BATCH),
            Err(_) => 0,
        };
        // by index: after a `get_mut` of an array in a field the proof knows nothing of the others (tried)
        if row < self.rows.len() {
            self.rows[row] = self.rows[row].saturating_add(1);
        }
    }
}
