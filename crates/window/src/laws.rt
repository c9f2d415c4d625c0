// What the definitions are shown to say: a function for each group of laws, whose contract asks for its proof.
ghost use Rattle.window.specs.Cases.{WindowCase, DeliveryCase};
ghost use Rattle.window.specs.Laws.{MarkAdds, FreeUnseen, ElseUnchanged, SeenMarked};
ghost use Rattle.window.specs.Laws.{NewFull, StaysFull, ServedOnce, ServedStands, ServedRanges, SeenGrows, SeenServed, ServedJoins};
ghost use Rattle.window.specs.Laws.{Delivers, DeliveryJoins};

use application::interface::Application;

pub fn cases_hold() -> u8
    ensures window { WindowCase }
    ensures delivery { DeliveryCase }
{
    0
}

// Of one window: a mark adds its timestamp to those seen, and what is seen is what was ever marked.
pub fn windows_hold() -> u8
    ensures adds { MarkAdds }
    ensures unseen { FreeUnseen }
    ensures unchanged { ElseUnchanged }
    ensures history { SeenMarked }
{
    0
}

// Of the requests that are applied: none twice, each of those given, and each in range.
pub fn served_hold() -> u8
    ensures full { NewFull }
    ensures stays { StaysFull }
    ensures once { ServedOnce }
    ensures stands { ServedStands }
    ensures ranges { ServedRanges }
    ensures grows { SeenGrows }
    ensures seen { SeenServed }
    ensures joins { ServedJoins }
{
    0
}

// Of deliveries to any application: the served requests make the state, and batches may be joined.
pub fn deliveries_hold<P: Application>(_app: &P) -> u8
    ensures delivers { Delivers P.next }
    ensures joins { DeliveryJoins P.next }
{
    0
}
