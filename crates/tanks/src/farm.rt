// The tank farm.
ghost use Rattle.std.specs.Prelude.{◌≡◌};
ghost use Rattle.tanks.specs.Farm.{read_tank};

use crate::tank::Tank;

#[derive(Clone, Copy)]
pub struct Farm {
    pub tanks: [Tank; 64],
}

impl Farm {
    // What a tank holds, if there is such a tank. The library's look-up in one line, as in other records of
    // places: what it looks into is the record's own.
    pub(crate) fn tank(&self, tank: u8) -> Option<Tank>
        ensures { result ≡ read_tank self.now tank }
    {
        self.tanks.get(usize::from(tank)).copied()
    }
}
