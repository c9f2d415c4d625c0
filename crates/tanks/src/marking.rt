// The mark of the tanks: FNV-1a over their numbers.
ghost use Rattle.std.specs.Prelude.{◌≡◌};
ghost use Rattle.digest.specs.Fnv.{fnv_from, fnv1a};
ghost use Rattle.tanks.specs.Mark.{tank_bytes, farm_bytes};

use crate::farm::Farm;
use crate::tank::Tank;
use digest::fnv::{absorb_all, offset_basis};

impl Tank {
    fn absorb(&self, hash: u64) -> u64
        ensures { result ≡ fnv_from hash (tank_bytes self.now) }
    {
        let h = absorb_all(hash, &self.litres.to_be_bytes());
        absorb_all(h, &self.set_point.to_be_bytes())
    }
}

impl Farm {
    pub(crate) fn fnv1a(&self) -> u64
        ensures { result ≡ fnv1a (farm_bytes self.now) }
    {
        self.tanks
            .iter()
            .fold(offset_basis(), |hash, tank| tank.absorb(hash))
    }
}
