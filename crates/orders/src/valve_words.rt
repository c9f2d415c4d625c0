// Orders to the valves in words.
ghost use Rattle.std.specs.Prelude.{◌≡◌};
ghost use Rattle.orders.specs.Words.{open_words, pay_words};

use crate::line::Wrong;
use crate::worded::Worded;
use text::numbers::number_in;
use valves::order::{ValveOrder, payload_of};
use valves::state::Valves;

fn open_words(valve: Option<u8>, opening: Option<u16>) -> Result<ValveOrder, Wrong>
    ensures { result ≡ open_words valve opening }
{
    Ok(ValveOrder::Open {
        valve: valve.ok_or(Wrong::Place)?,
        opening: opening.ok_or(Wrong::Amount)?,
    })
}

fn pay_words(to: Option<u8>, units: Option<u32>) -> Result<ValveOrder, Wrong>
    ensures { result ≡ pay_words to units }
{
    Ok(ValveOrder::Pay {
        to: to.ok_or(Wrong::Place)?,
        units: units.ok_or(Wrong::Amount)?,
    })
}

fn order_in(words: &[&str]) -> Result<ValveOrder, Wrong> {
    match words {
        ["open", valve, amount] => open_words(number_in(valve), number_in(amount)),
        ["pay", client, units] => pay_words(number_in(client), number_in(units)),
        ["open", ..] | ["pay", ..] | [] => Err(Wrong::Words),
        _ => Err(Wrong::NoOrder),
    }
}

impl Worded for Valves {
    fn payload_in(words: &[&str]) -> Result<u64, Wrong> {
        Ok(payload_of(order_in(words)?))
    }

    // An account is shown that does not hold the 10,000 units that it began with.
    fn show(&self, rt: &HostRuntime) -> anyhow::Result<()> {
        // by number: the accounts give themselves out one by one
        for client in 0..32u8 {
            if let Some(units) = self.account(client).filter(|units| *units != 10_000) {
                println!(rt; "client {client}: {units} units")?;
            }
        }
        println!(rt; "plant: {}", self.plant())?;
        Ok(())
    }
}
