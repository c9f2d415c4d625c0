// What is published: FNV-1a of 64 bits by its authors, SHA-256 by NIST in the examples to FIPS 180-4.
use std::alloc::{AllocError, Global};
use std::fmt;

#[derive(Clone, Copy)]
pub enum Message {
    Text(&'static str),
    // `part` so many times over
    Named {
        name: &'static str,
        part: &'static str,
        times: usize,
    },
}

impl Message {
    // What is to be repeated, or the text itself.
    pub(crate) fn part(&self) -> &'static str {
        match *self {
            Message::Text(text) => text,
            Message::Named { part, .. } => part,
        }
    }

    // The message that a part makes. A text takes no memory: it stands whole.
    pub(crate) fn repeated(&self, alloc: Global) -> Result<Option<String>, AllocError> {
        match *self {
            Message::Text(_) => Ok(None),
            Message::Named { part, times, .. } => Ok(Some(part.repeat(alloc, times)?)),
        }
    }
}

impl fmt::Display for Message {
    fn fmt<W: fmt::Write>(&self, f: &mut fmt::Formatter<W>) -> fmt::Result {
        match *self {
            Message::Text(text) => write!(f, "\"{text}\""),
            Message::Named { name, .. } => f.write_str(name),
        }
    }
}

// A message, and its digest as big-endian numbers of 64 bits.
#[derive(Clone, Copy)]
pub struct Vector<const N: usize> {
    pub message: Message,
    pub digest: [u64; N],
}

pub const FNV: [Vector<1>; 12] = [
    Vector {
        message: Message::Text(""),
        digest: [0xcbf29ce484222325],
    },
    Vector {
        message: Message::Text("a"),
        digest: [0xaf63dc4c8601ec8c],
    },
    Vector {
        message: Message::Text("b"),
        digest: [0xaf63df4c8601f1a5],
    },
    Vector {
        message: Message::Text("c"),
        digest: [0xaf63de4c8601eff2],
    },
    Vector {
        message: Message::Text("d"),
        digest: [0xaf63d94c8601e773],
    },
    Vector {
        message: Message::Text("e"),
        digest: [0xaf63d84c8601e5c0],
    },
    Vector {
        message: Message::Text("f"),
        digest: [0xaf63db4c8601ead9],
    },
    Vector {
        message: Message::Text("fo"),
        digest: [0x08985907b541d342],
    },
    Vector {
        message: Message::Text("foo"),
        digest: [0xdcb27518fed9d577],
    },
    Vector {
        message: Message::Text("foob"),
        digest: [0xdd120e790c2512af],
    },
    Vector {
        message: Message::Text("fooba"),
        digest: [0xcac165afa2fef40a],
    },
    Vector {
        message: Message::Text("foobar"),
        digest: [0x85944171f73967e8],
    },
];

pub const SHA256: [Vector<4>; 5] = [
    Vector {
        message: Message::Named {
            name: "the empty message",
            part: "",
            times: 1,
        },
        digest: [
            0xe3b0c44298fc1c14,
            0x9afbf4c8996fb924,
            0x27ae41e4649b934c,
            0xa495991b7852b855,
        ],
    },
    Vector {
        message: Message::Text("abc"),
        digest: [
            0xba7816bf8f01cfea,
            0x414140de5dae2223,
            0xb00361a396177a9c,
            0xb410ff61f20015ad,
        ],
    },
    Vector {
        message: Message::Named {
            name: "the 448-bit message",
            part: "abcdbcdecdefdefgefghfghighijhijkijkljklmklmnlmnomnopnopq",
            times: 1,
        },
        digest: [
            0x248d6a61d20638b8,
            0xe5c026930c3e6039,
            0xa33ce45964ff2167,
            0xf6ecedd419db06c1,
        ],
    },
    Vector {
        message: Message::Named {
            name: "the 896-bit message",
            part: "abcdefghbcdefghicdefghijdefghijkefghijklfghijklmghijklmnhijklmnoijklmnopjklmnopqklmnopqrlmnopqrsmnopqrstnopqrstu",
            times: 1,
        },
        digest: [
            0xcf5b16a778af8380,
            0x036ce59e7b049237,
            0x0b249b11e8f07a51,
            0xafac45037afee9d1,
        ],
    },
    Vector {
        message: Message::Named {
            name: "one million \"a\"",
            part: "a",
            times: 1_000_000,
        },
        digest: [
            0xcdc76e5c9914fb92,
            0x81a1c7e284d73e67,
            0xf1809a48a497200e,
            0x046d39ccc7112cd0,
        ],
    },
];
