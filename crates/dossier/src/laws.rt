// What is shown of dossiers: each function's contract is a theorem.
ghost use Rattle.dossier.specs.Cases.{Cases};
ghost use Rattle.dossier.specs.Laws.{AllAccepted, DossierSound, RefusedWithin};

// The worked dossier of 92 records, and faults with their index.
pub fn cases_hold() -> u8
    ensures { Cases }
{
    0
}

// An accepted dossier is sound: the checker accepts each record, q signers spoke, and what is chosen
// is the highest claim, which q prepares back. Of a refused one the index is at most its length.
pub fn dossiers_sound() -> u8
    ensures accepted { AllAccepted }
    ensures sound { DossierSound }
    ensures within { RefusedWithin }
{
    0
}
