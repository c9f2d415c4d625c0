// What judges a dossier.
use crate::parts::Terms;
use seal::checker::SealChecker;

// A seal checker, and the terms of the new epoch.
#[derive(Drop)]
pub struct Target<'a, C: SealChecker> {
    pub checker: &'a C,
    pub terms: Terms,
}
