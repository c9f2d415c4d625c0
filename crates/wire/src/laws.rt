// Each record has one frame.
ghost use Rattle.std.specs.Prelude.{◌≡◌};
ghost use Rattle.wire.specs.declared.records.DigestValue.{DigestValue as Value};
ghost use Rattle.wire.specs.Values.{same_digest};
ghost use Rattle.wire.specs.Laws.{SealedReadsBack, BatchReadsBack, SealedIsFrame, BatchIsFrame, KindsReadBack, SameKinds};

use crate::records::DigestValue;

// What is written reads back as it was, whatever follows it.
pub fn written_reads_back() -> u8
    ensures sealed { SealedReadsBack }
    ensures batch { BatchReadsBack }
{
    0
}

// Bytes that read as a record are its writing, and what is left.
pub fn read_is_written() -> u8
    ensures sealed { SealedIsFrame }
    ensures batch { BatchIsFrame }
{
    0
}

// Each byte is that of its kind, a known kind is that of its byte, and kinds that are called the same are equal.
pub fn kinds_hold() -> u8
    ensures back { KindsReadBack }
    ensures same { SameKinds }
{
    0
}

// `==` of digest values is the definitions' sameness.
pub fn equality_holds() -> u8
    ensures { (a b : Value) → ⟦<DigestValue as PartialEq>⟧.eq a b ≡ same_digest a b }
{
    0
}
