// Takes recorded frames apart: one frame a line on standard input, in hexadecimal; empty lines and
// lines that begin with # are skipped. Prints what each says, and an account at the end.
#![tactic(auto)]

mod account;
mod frame;
mod shown;

use account::Account;
use frame::{Frame, frame_in};
use shown::{show_account, show_batch, show_fault, show_statement};
use std::io::{BufRead, BufReader};
use text::hex::decode_hex;
use wire::faults::FrameFault;

fn show_frame(
    rt: &HostRuntime,
    line: u64,
    frame: &Result<Frame, FrameFault>,
) -> anyhow::Result<()> {
    match frame {
        Ok(Frame::Statement(sealed)) => show_statement(rt, line, sealed),
        Ok(Frame::Requests(batch)) => show_batch(rt, line, batch),
        Err(fault) => show_fault(rt, line, fault),
    }
}

fn take_line(rt: &HostRuntime, account: &mut Account, text: &[u8]) -> anyhow::Result<()> {
    let line = account.next_line();
    match decode_hex(rt.alloc(), text) {
        Ok(bytes) => {
            let frame = frame_in(bytes.as_slice());
            account.count(&frame);
            show_frame(rt, line, &frame)
        }
        Err(fault) => {
            account.count_unread();
            println!(rt; "{line}: {fault}")?;
            Ok(())
        }
    }
}

fn run(rt: &HostRuntime) -> anyhow::Result<()> {
    let mut account = Account::default();
    for line in BufReader::new(rt.alloc(), rt.stdin())?.split(rt.alloc(), b'\n') {
        let text = line?;
        match text.as_slice() {
            [] | [b'#', ..] => {}
            bytes => take_line(rt, &mut account, bytes)?,
        }
    }
    show_account(rt, &account)
}

fn main(rt: HostRuntime) -> anyhow::Result<()> {
    run(&rt)
}
