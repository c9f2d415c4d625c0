// The orders of a day to one application.
use crate::account::Account;
use crate::line::line_in;
use crate::outcome::Noted;
use crate::worded::Worded;
use window::windows::Windows;
use wire::records::Request;

#[derive(Drop)]
pub struct Day<P> {
    noted: Noted<P>,
    windows: Windows,
    account: Account,
}

impl<P: Worded> Day<P> {
    pub(crate) fn new(app: P) -> Day<P> {
        Day {
            noted: Noted { app, answer: None },
            windows: Windows::new(),
            account: Account::default(),
        }
    }

    pub(crate) fn take(
        &mut self,
        rt: &HostRuntime,
        number: u64,
        bytes: &[u8],
    ) -> anyhow::Result<()> {
        match line_in::<P>(rt.alloc(), bytes)? {
            Ok(request) => {
                let outcome = self.noted.serve(&mut self.windows, request);
                self.account.count(outcome);
                let Request {
                    client,
                    timestamp,
                    ..
                } = request;
                println!(rt; "{number}: client {client}, timestamp {timestamp}: {outcome}")?;
            }
            Err(wrong) => {
                self.account.count_bad();
                println!(rt; "{number}: bad line: {wrong}")?;
            }
        }
        Ok(())
    }

    pub(crate) fn close(&self, rt: &HostRuntime) -> anyhow::Result<()> {
        println!(rt; "{}", self.account)?;
        self.noted.app.show(rt)?;
        println!(rt; "mark: {:016x}", self.noted.app.mark())?;
        Ok(())
    }
}
