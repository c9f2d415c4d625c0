// What a seal checker means: a relation between statements and seals. Asking alters nothing.
ghost use Rattle.std.specs.Prelude.{◌≡◌, ℕ, Bool};
ghost use Rattle.wire.specs.declared.records.Statement.{Statement};

use wire::records::Statement;

pub trait SealChecker {
    // which relation it is
    ghost accepts: { Self → Statement → ℕ → Bool };

    fn genuine(&self, st: &Statement, seal: u64) -> bool
        ensures { result ≡ accepts self.now st.now seal };
}
