// Orders to the tanks in words.
ghost use Rattle.std.specs.Prelude.{◌≡◌};
ghost use Rattle.orders.specs.Words.{set_words, fill_words, move_words};

use crate::line::Wrong;
use crate::numbers::{Degrees, degrees_in};
use crate::worded::Worded;
use tanks::order::{TankOrder, payload_of};
use tanks::state::Tanks;
use tanks::tank::Tank;
use text::numbers::number_in;

// Each order names its own fields and faults, here and for the valves, so there is no one reader for all.
fn set_words(tank: Option<u8>, degrees: Option<i16>) -> Result<TankOrder, Wrong>
    ensures { result ≡ set_words tank degrees }
{
    Ok(TankOrder::SetPoint {
        tank: tank.ok_or(Wrong::Place)?,
        set_point: degrees.ok_or(Wrong::Degrees)?,
    })
}

fn fill_words(tank: Option<u8>, litres: Option<u32>) -> Result<TankOrder, Wrong>
    ensures { result ≡ fill_words tank litres }
{
    Ok(TankOrder::SetLitres {
        tank: tank.ok_or(Wrong::Place)?,
        litres: litres.ok_or(Wrong::Amount)?,
    })
}

fn move_words(from: Option<u8>, to: Option<u8>, litres: Option<u32>) -> Result<TankOrder, Wrong>
    ensures { result ≡ move_words from to litres }
{
    Ok(TankOrder::Move {
        from: from.ok_or(Wrong::Place)?,
        to: to.ok_or(Wrong::Place)?,
        litres: litres.ok_or(Wrong::Amount)?,
    })
}

fn order_in(words: &[&str]) -> Result<TankOrder, Wrong> {
    match words {
        ["set", tank, degrees] => set_words(number_in(tank), degrees_in(degrees)),
        ["fill", tank, litres] => fill_words(number_in(tank), number_in(litres)),
        ["move", from, to, litres] => move_words(number_in(from), number_in(to), number_in(litres)),
        ["set", ..] | ["fill", ..] | ["move", ..] | [] => Err(Wrong::Words),
        _ => Err(Wrong::NoOrder),
    }
}

impl Worded for Tanks {
    fn payload_in(words: &[&str]) -> Result<u64, Wrong> {
        Ok(payload_of(order_in(words)?))
    }

    // A tank is shown that holds something or is not set to 20 degrees.
    fn show(&self, rt: &HostRuntime) -> anyhow::Result<()> {
        // by number: the tanks give themselves out one by one
        for number in 0..64u8 {
            let changed = self
                .tank(number)
                .filter(|t| t.litres > 0 || t.set_point != 2000);
            if let Some(Tank { litres, set_point }) = changed {
                let degrees = Degrees(set_point);
                println!(rt; "tank {number}: {litres} litres, set to {degrees} degrees")?;
            }
        }
        Ok(())
    }
}
