// The tanks as an application.
ghost use Rattle.std.specs.Prelude.{◌≡◌};
ghost use Rattle.tanks.specs.Tanks.{new_tanks, after, answer, mark_of, tank_at};

use crate::farm::Farm;
use crate::order::order_of;
use crate::state::Tanks;
use crate::tank::Tank;
use application::codes::answer_code;
use application::interface::Application;

impl Tanks {
    pub fn new() -> Tanks
        ensures { result ≡ new_tanks }
    {
        let first = Tank {
            litres: 0,
            set_point: 2000,
        };
        Tanks {
            farm: Farm { tanks: [first; 64] },
        }
    }

    // What a tank holds, if there is such a tank.
    pub fn tank(&self, tank: u8) -> Option<Tank>
        ensures { result ≡ tank_at self.now tank }
    {
        self.farm.tank(tank)
    }
}

impl Application for Tanks {
    ghost next = { after };

    ghost code = { answer };

    ghost marked = { mark_of };

    fn apply(&mut self, client: u8, timestamp: u32, payload: u64) -> u8 {
        answer_code(self.farm.carry_out(client, order_of(payload)))
    }

    fn mark(&self) -> u64 {
        self.farm.fnv1a()
    }
}
