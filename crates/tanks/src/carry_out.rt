// How the tanks change.
ghost use Rattle.std.specs.Prelude.{◌≡◌, ℕ, ◌≤◌};
ghost use Rattle.application.specs.Codes.{answer_code};
ghost use Rattle.tanks.specs.Farm.{held, tank_in, code_of, code_of_set_point, code_of_set_litres, code_of_move, with_set_point, with_litres, moved, carried_out, if_done};

use crate::farm::Farm;
use crate::order::TankOrder;
use crate::tank::Tank;
use application::codes::Reject;
use application::interface::LAST_CLIENT;

const CAPACITY: u32 = 100_000;

const COLDEST: i16 = -500;

const WARMEST: i16 = 3000;

impl Farm {
    // What a tank holds, if there are such a client and such a tank.
    fn held(&self, client: u8, tank: u8) -> Result<Tank, Reject>
        ensures { result ≡ held self.now client tank }
    {
        if client > LAST_CLIENT {
            return Err(Reject::BadPlace);
        }
        self.tank(tank).ok_or(Reject::BadPlace)
    }

    // By index: after a `get_mut` of an array in a field nothing is known of its elements.
    fn set_point(&mut self, client: u8, tank: u8, to: i16) -> Result<(), Reject>
        ensures value { answer_code result ≡ code_of_set_point client tank to }
        ensures after { self.new ≡ if_done (answer_code result) (with_set_point self.old tank to) self.old }
    {
        let held = self.held(client, tank)?;
        if !(COLDEST..=WARMEST).contains(&to) {
            return Err(Reject::BadValue);
        }
        self.tanks[usize::from(tank)] = Tank {
            set_point: to,
            ..held
        };
        Ok(())
    }

    fn set_litres(&mut self, client: u8, tank: u8, litres: u32) -> Result<(), Reject>
        ensures value { answer_code result ≡ code_of_set_litres client tank litres }
        ensures after { self.new ≡ if_done (answer_code result) (with_litres self.old tank litres) self.old }
    {
        let held = self.held(client, tank)?;
        if litres > CAPACITY {
            return Err(Reject::BadValue);
        }
        self.tanks[usize::from(tank)] = Tank { litres, ..held };
        Ok(())
    }

    fn move_litres(&mut self, client: u8, from: u8, to: u8, litres: u32) -> Result<(), Reject>
        requires { (tank : ℕ) → (tank_in self.old tank).litres ≤ 100000 }
        ensures value { answer_code result ≡ code_of_move self.old client from to litres }
        ensures after { self.new ≡ if_done (answer_code result) (moved self.old from to litres) self.old }
    {
        let source = self.held(client, from)?;
        let target = self.held(client, to)?;
        if from == to {
            return Err(Reject::BadPlace);
        }
        let left = source.litres.checked_sub(litres).ok_or(Reject::BadAmount)?;
        let filled = target.litres + litres;
        if filled > CAPACITY {
            return Err(Reject::BadAmount);
        }
        self.tanks[usize::from(from)] = Tank {
            litres: left,
            ..source
        };
        self.tanks[usize::from(to)] = Tank {
            litres: filled,
            ..target
        };
        Ok(())
    }

    // Carries out an order, or answers why not.
    pub(crate) fn carry_out(&mut self, client: u8, order: Option<TankOrder>) -> Result<(), Reject>
        requires { (tank : ℕ) → (tank_in self.old tank).litres ≤ 100000 }
        ensures value { answer_code result ≡ code_of self.old client order }
        ensures after { self.new ≡ carried_out self.old client order }
    {
        match order.ok_or(Reject::Unknown)? {
            TankOrder::SetPoint { tank, set_point } => self.set_point(client, tank, set_point),
            TankOrder::SetLitres { tank, litres } => self.set_litres(client, tank, litres),
            TankOrder::Move { from, to, litres } => self.move_litres(client, from, to, litres),
        }
    }
}
