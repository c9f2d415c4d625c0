// A recorded run, line by line.
ghost use Rattle.std.specs.Prelude.{◌≡◌, IsNone};

use crate::account::Account;
use crate::fault::LineFault;
use crate::line::{Line, Opening};
use crate::session::Session;
use crate::shown::{HouseLine, show};
use crate::words::line_in;
use protocol::refusal::Refusal;
use quorum::house::House;
use std::alloc::Global;

#[derive(Drop)]
pub struct Play {
    // the house that is open, if one is
    session: Option<Session>,
    account: Account,
}

// A line may end in a carriage return, as some hosts write it.
fn without_return(line: &[u8]) -> &[u8] {
    match line {
        [text @ .., b'\r'] => text,
        _ => line,
    }
}

impl Play {
    // No house is open, and nothing is counted.
    pub(crate) fn new() -> Play
        ensures session { IsNone result.session }
        ensures account { result.account ≡ record { calls = 0; accepted = 0; refused = 0; batches = 0; applied = 0; passed = 0 } }
    {
        Play {
            session: None,
            account: Account::default(),
        }
    }

    // Opens a house in the place of the one that was open, or leaves that as it is.
    fn open(&mut self, heap: Global, opening: &Opening) -> Result<HouseLine, LineFault> {
        let house = House::new(opening.n, 0).map_err(|_| Refusal::House)?;
        self.session = Some(Session::open(heap, opening)?);
        Ok(HouseLine(house))
    }

    pub(crate) fn take(&mut self, rt: &HostRuntime, line: &[u8]) -> anyhow::Result<()> {
        let text = without_return(line);
        if let [] | [b'#', ..] = text {
            return Ok(());
        }
        let members = self.session.as_ref().map(Session::len);
        match line_in(rt.alloc(), members, text) {
            Ok(Line::House(opening)) => show(rt, self.open(rt.alloc(), &opening)),
            Ok(Line::Asked(asked)) => match &mut self.session {
                Some(session) => session.take(rt, &mut self.account, asked),
                // where no house is open, no line asks one anything
                None => Ok(()),
            },
            Err(fault) => {
                println!(rt; "{fault}")?;
                Ok(())
            }
        }
    }

    pub(crate) fn finish(&self, rt: &HostRuntime) -> anyhow::Result<()> {
        println!(rt; "\n{}", self.account)?;
        if let Some(session) = &self.session {
            session.show_all(rt)?;
        }
        Ok(())
    }
}
