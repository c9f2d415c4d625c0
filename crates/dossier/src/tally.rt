// What the walk has found so far, part by part.
use crate::parts::Claim;

// The held statements of a number so far: the highest claim, with the digest that was first named,
// and whether another digest was named with its epoch too. An Option in place of the flag would be
// opened for the claim at the end, where it is never None.
#[derive(Clone, Copy)]
pub struct Tally {
    pub claim: Claim,
    pub clash: bool,
}

// What a part of the dossier says, and the place after its records. A place goes in and comes out,
// as in the definitions: with a cursor that moves, each contract would tell its old place from its new.
#[derive(Clone, Copy)]
pub struct Found<T> {
    pub value: T,
    pub next: usize,
}
