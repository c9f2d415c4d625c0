// What is shown of quorums: each function's contract is a theorem.
ghost use Rattle.quorum.specs.Sizes.{SizesHold};
ghost use Rattle.quorum.specs.Cases.{Cases};
ghost use Rattle.quorum.specs.Laws.{QuorumsOverlap, QuorumsMeet, QuorumHonest, SignersCount};

// The facts that every count rests on hold of each allowed size.
pub fn sizes_hold() -> u8
    ensures { SizesHold }
{
    0
}

// The worked sizes.
pub fn cases_hold() -> u8
    ensures { Cases }
{
    0
}

// Two quorums share more than f controllers, so one that does not lie.
pub fn quorums_meet() -> u8
    ensures overlap { QuorumsOverlap }
    ensures meet { QuorumsMeet }
    ensures honest { QuorumHonest }
{
    0
}

// Ascending signers are as many controllers.
pub fn signers_count() -> u8
    ensures { SignersCount }
{
    0
}
