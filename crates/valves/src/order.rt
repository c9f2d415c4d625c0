// What a client can ask of the valves.
ghost use Rattle.std.specs.Prelude.{◌≡◌, Some};
ghost use Rattle.valves.specs.Orders.{order_of, payload_of};

#[derive(Clone, Copy)]
pub enum ValveOrder {
    // the client pays the change of the opening to the plant
    Open { valve: u8, opening: u16 },
    // the client pays another
    Pay { to: u8, units: u32 },
}

// The order in a payload, if there is one. One pattern for each, which is the format's table; no `TryFrom`, since
// nothing more is said of a payload without an order.
pub fn order_of(payload: u64) -> Option<ValveOrder>
    ensures { result ≡ order_of payload }
{
    match payload.to_be_bytes() {
        [1, valve, 0, 0, 0, 0, b6, b7] => Some(ValveOrder::Open {
            valve,
            opening: u16::from_be_bytes([b6, b7]),
        }),
        [2, to, 0, 0, b4, b5, b6, b7] => Some(ValveOrder::Pay {
            to,
            units: u32::from_be_bytes([b4, b5, b6, b7]),
        }),
        _ => None,
    }
}

// The payload of an order.
pub fn payload_of(order: ValveOrder) -> u64
    ensures value { result ≡ payload_of order }
    ensures read { order_of result ≡ Some order }
{
    match order {
        ValveOrder::Open { valve, opening } => {
            let [b6, b7] = opening.to_be_bytes();
            u64::from_be_bytes([1, valve, 0, 0, 0, 0, b6, b7])
        }
        ValveOrder::Pay { to, units } => {
            let [b4, b5, b6, b7] = units.to_be_bytes();
            u64::from_be_bytes([2, to, 0, 0, b4, b5, b6, b7])
        }
    }
}
