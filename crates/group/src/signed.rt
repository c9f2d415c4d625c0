// Records that name a signer.
ghost use Rattle.std.specs.Prelude.{◌≡◌, ℕ};

use wire::records::Sealed;

pub trait Signed {
    ghost names: { Self → ℕ };

    fn signer(&self) -> u8
        ensures { result ≡ names self.now };
}

impl Signed for Sealed {
    ghost names = { λ s. s.statement.signer };

    fn signer(&self) -> u8 {
        self.statement.signer
    }
}

// A vote that a place of a table keeps; what it says is the place's.
#[derive(Clone, Copy)]
pub struct Mark {
    pub signer: u8,
    pub seal: u64,
}

impl Signed for Mark {
    ghost names = { λ m. m.signer };

    fn signer(&self) -> u8 {
        self.signer
    }
}
