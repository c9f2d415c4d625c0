// What the definitions themselves are shown to say: a function for each law, whose contract asks for its proof.
ghost use Rattle.digest.specs.Laws.{FnvExamples, OneBlock, TwoBlocks, FewestZeros, FirstWords, Recurrence};

pub fn fnv_examples_hold() -> u8
    ensures { FnvExamples }
{
    0
}

pub fn sha256_examples_hold() -> u8
    ensures one_block { OneBlock }
    ensures two_blocks { TwoBlocks }
{
    0
}

pub fn padding_holds() -> u8
    ensures { FewestZeros }
{
    0
}

pub fn schedule_holds() -> u8
    ensures first_words { FirstWords }
    ensures recurrence { Recurrence }
{
    0
}
