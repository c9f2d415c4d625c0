// Applies orders in words. The first line says to what, `tanks` or `valves`; then each line is an order:
//     CLIENT TIMESTAMP set TANK DEGREES | fill TANK LITRES | move FROM TO LITRES
//     CLIENT TIMESTAMP open VALVE AMOUNT | pay CLIENT UNITS
// Empty lines and lines that begin with # are skipped. It prints what becomes of each order, and an account at the end.
#![tactic(auto)]

mod account;
mod day;
mod line;
mod numbers;
mod outcome;
mod tank_words;
mod valve_words;
mod worded;

use day::Day;
use std::io::{BufRead, BufReader, Split};
use tanks::state::Tanks;
use valves::state::Valves;
use worded::Worded;

// The lines after the first, which line numbers count too.
fn serve_lines<P: Worded + Drop, R: BufRead + Drop>(
    rt: &HostRuntime,
    app: P,
    lines: Split<R>,
) -> anyhow::Result<()> {
    let mut day = Day::new(app);
    // a count, and no range beside the lines, since a range would end them
    let mut number = 1u64;
    for line in lines {
        let text = line?;
        number = number.saturating_add(1);
        match text.as_slice() {
            [] | [b'#', ..] => {}
            bytes => day.take(rt, number, bytes)?,
        }
    }
    day.close(rt)
}

fn run(rt: &HostRuntime) -> anyhow::Result<()> {
    let mut lines = BufReader::new(rt.alloc(), rt.stdin())?.split(rt.alloc(), b'\n');
    let name = lines
        .next()
        .transpose()?
        .unwrap_or_else(|| Vec::new(rt.alloc()));
    match name.as_slice() {
        b"tanks" => serve_lines(rt, Tanks::new(), lines),
        b"valves" => serve_lines(rt, Valves::new(), lines),
        _ => {
            rt.println("nothing done: the first line is neither tanks nor valves")?;
            Ok(())
        }
    }
}

fn main(rt: HostRuntime) -> anyhow::Result<()> {
    run(&rt)
}
