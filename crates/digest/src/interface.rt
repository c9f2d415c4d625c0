// What a digest means: a function from bytes to a digest value. Asking alters nothing.
ghost use Rattle.std.specs.Prelude.{◌≡◌, ℕ, List};
ghost use Rattle.wire.specs.declared.records.DigestValue.{DigestValue};

use wire::records::DigestValue;

pub trait Digest {
    // which function of the bytes it is
    ghost value: { Self → List ℕ → DigestValue };

    fn digest(&self, bytes: &[u8]) -> DigestValue
        ensures { result ≡ value self.now bytes.now };
}
