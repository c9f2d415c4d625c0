// What is shown of sameness and of the roll: each function's contract is a theorem.
ghost use Rattle.seal.specs.Records.{Same};
ghost use Rattle.seal.specs.Roll.{Membership};

// Digests and statements that the tests call the same are equal, and the other way round.
pub fn same_holds() -> u8
    ensures { Same }
{
    0
}

// A roll accepts exactly what stands in its list.
pub fn roll_holds() -> u8
    ensures { Membership }
{
    0
}
