// What a line asks for.
use crate::choices::{AnyApplication, AnyDigest};
use wire::records::{Batch, Sealed};

#[derive(Clone, Copy)]
pub struct Opening {
    // how many controllers; 255 for all above, since no house has so many
    pub n: u8,
    // at its start
    pub application: AnyApplication,
    pub digest: AnyDigest,
}

#[derive(Drop)]
pub enum Call {
    Offer(Sealed, Batch),
    Vote(Sealed),
    Supply(u64, Batch),
    Prove(u64, Batch, Vec<Sealed>),
    GiveUp,
    Enter(Sealed, Vec<Sealed>),
    Turn,
}

// What the house that is open is asked. Controllers stand by their numbers, which are those of controllers of the house.
#[derive(Drop)]
pub enum Asked {
    Genuine(Sealed),
    Call(usize, Call),
    Outbox(usize, u64),
    Show(usize),
    Window(usize, u8),
    Batch(usize, u64),
}

#[derive(Drop)]
pub enum Line {
    House(Opening),
    Asked(Asked),
}
