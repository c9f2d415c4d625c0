// What is proved of the valves besides what each call answers.
ghost use Rattle.valves.specs.Cases.{OpenedTwice};
ghost use Rattle.valves.specs.Laws.{Unchanged, Whole, Within};

pub fn laws_hold() -> u8
    ensures whole { Whole }
    ensures within { Within }
    ensures unchanged { Unchanged }
    ensures worked { OpenedTwice }
{
    0
}
