// What is shown of the host's side: each function's contract is a theorem.
ghost use Rattle.host.specs.Cases.{Cases, Premises};
ghost use Rattle.host.specs.Keys.{OneSeal};
ghost use Rattle.host.specs.Laws.{AssemblyAccepted};

// Worked partings and seals, and that the worked partings are true ones.
pub fn assembly_holds() -> u8
    ensures cases { Cases }
    ensures premises { Premises }
{
    0
}

// The dossier of q true partings is accepted, whatever the house, the checker and the epoch.
pub fn assembly_accepted() -> u8
    ensures { AssemblyAccepted }
{
    0
}

// A keyring accepts what it sealed, and each statement under one seal only.
pub fn keyring_holds() -> u8
    ensures { OneSeal }
{
    0
}
