// What a client can ask of the tanks.
ghost use Rattle.std.specs.Prelude.{◌≡◌, Some};
ghost use Rattle.tanks.specs.Orders.{order_of, payload_of};

#[derive(Clone, Copy)]
pub enum TankOrder {
    SetPoint { tank: u8, set_point: i16 },
    SetLitres { tank: u8, litres: u32 },
    Move { from: u8, to: u8, litres: u32 },
}

// The order in a payload, if there is one. One pattern for each, which is the format's table; no `TryFrom`, since
// nothing more is said of a payload without an order.
pub fn order_of(payload: u64) -> Option<TankOrder>
    ensures { result ≡ order_of payload }
{
    match payload.to_be_bytes() {
        [1, tank, 0, 0, 0, 0, b6, b7] => Some(TankOrder::SetPoint {
            tank,
            set_point: i16::from_be_bytes([b6, b7]),
        }),
        [2, tank, 0, 0, b4, b5, b6, b7] => Some(TankOrder::SetLitres {
            tank,
            litres: u32::from_be_bytes([b4, b5, b6, b7]),
        }),
        [3, from, to, 0, b4, b5, b6, b7] => Some(TankOrder::Move {
            from,
            to,
            litres: u32::from_be_bytes([b4, b5, b6, b7]),
        }),
        _ => None,
    }
}

// The payload of an order.
pub fn payload_of(order: TankOrder) -> u64
    ensures value { result ≡ payload_of order }
    ensures read { order_of result ≡ Some order }
{
    match order {
        TankOrder::SetPoint { tank, set_point } => {
            let [b6, b7] = set_point.to_be_bytes();
            u64::from_be_bytes([1, tank, 0, 0, 0, 0, b6, b7])
        }
        TankOrder::SetLitres { tank, litres } => {
            let [b4, b5, b6, b7] = litres.to_be_bytes();
            u64::from_be_bytes([2, tank, 0, 0, b4, b5, b6, b7])
        }
        TankOrder::Move { from, to, litres } => {
            let [b4, b5, b6, b7] = litres.to_be_bytes();
            u64::from_be_bytes([3, from, to, 0, b4, b5, b6, b7])
        }
    }
}
