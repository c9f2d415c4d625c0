// The tanks with what always holds of them.
ghost use Rattle.std.specs.Prelude.{◌≡◌, ℕ, ◌≤◌, false, length};
ghost use Rattle.tanks.specs.Farm.{tank_in, out_of_range};

use crate::farm::Farm;

#[derive(Clone, Copy)]
pub struct Tanks {
    pub(crate) farm: Farm,
    ghost long: { length farm.tanks ≡ 64 },
    // no tank holds more than 100,000 litres
    ghost level: { (tank : ℕ) → (tank_in farm tank).litres ≤ 100000 },
    // no set point is out of range
    ghost warmth: { (tank : ℕ) → out_of_range (tank_in farm tank).set_point ≡ false },
}
