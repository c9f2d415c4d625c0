// Why bytes are no frame, and why a record has none.
ghost use Rattle.std.specs.Prelude.{Some};
ghost use Rattle.wire.specs.Texts.{fault_text};

use std::fmt;

// The place of the byte at which bytes are no frame: 2 the version, 3 the kind, 4 the count, 0 the
// length, else the first byte that is absent. A number and no enum: any byte may be the absent one, and hosts are told the
// byte's place.
#[derive(Clone, Copy, PartialEq, Eq, Debug)]
pub struct FrameFault {
    pub place: usize,
}

#[derive(Clone, Copy, PartialEq, Eq, Debug)]
pub enum WriteFault {
    // no statement has this kind
    UnknownKind(u8),
    // a batch of more than 16 requests
    TooMany(usize),
}

impl fmt::Display for FrameFault {
    ghost output = { λ fault. Some (fault_text fault) };

    fn fmt<W: fmt::Write>(&self, f: &mut fmt::Formatter<W>) -> fmt::Result {
        let place = self.place;
        let what = match place {
            0 => "the length is not that of what follows",
            2 => "no version 1",
            3 => "no kind of a frame",
            4 => "no count of 0 to 16",
            _ => "the frame ends here, too early",
        };
        write!(f, "fault at byte {place}: {what}")
    }
}
