// What is proved of the tanks besides what each call answers.
ghost use Rattle.tanks.specs.Cases.{FilledAndMoved};
ghost use Rattle.tanks.specs.Laws.{MovesKeep, Unchanged, Within};

pub fn laws_hold() -> u8
    ensures within { Within }
    ensures moves { MovesKeep }
    ensures unchanged { Unchanged }
    ensures worked { FilledAndMoved }
{
    0
}
