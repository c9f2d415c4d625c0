// A base, and marks for the timestamps base + 1 to base + 64: bit k − 1 for base + k.
#[derive(Clone, Copy)]
pub struct Span {
    pub base: u32,
    pub marks: u64,
}
