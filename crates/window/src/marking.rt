// What is free in a window, and what a mark changes.
ghost use Rattle.std.specs.Prelude.{◌≡◌, ◌-◌, ◌^◌, ◌<◌, min, true, SomeIff};
ghost use Rattle.window.specs.Spans.{free, marked, rise};
ghost use Rattle.window.specs.Marked.{after, fresh};

use crate::span::Span;
use crate::window::Window;

impl Span {
    // Which bit is the mark of a timestamp, if it is one of the 64 above the base and not marked.
    fn free_bit(&self, timestamp: u32) -> Option<u32>
        ensures { SomeIff result (free self.now timestamp ≡ true) (timestamp - self.now.base - 1) }
    {
        timestamp
            .checked_sub(self.base)?
            .checked_sub(1)
            .filter(|bit| *bit < 64 && (self.marks >> *bit) % 2 == 0)
    }

    // The base rises past the marks that are set from the lowest one on.
    fn settle(&mut self)
        requires { self.old.marks < 2 ^ min 64 (4294967295 - self.old.base) }
        ensures { self.new ≡ rise 64 self.old }
    {
        let set = self.marks.trailing_ones();
        self.marks = self.marks.unbounded_shr(set);
        self.base += set;
    }

    fn mark(&mut self, timestamp: u32)
        requires { self.old.marks < 2 ^ min 64 (4294967295 - self.old.base) }
        ensures { self.new ≡ marked self.old timestamp }
    {
        if let Some(bit) = self.free_bit(timestamp) {
            self.marks |= 1 << bit;
            self.settle();
        }
    }
}

impl Window {
    // The window of a client that nothing was applied of.
    pub fn new() -> Window
        ensures { result ≡ fresh }
    {
        Window {
            span: Span { base: 0, marks: 0 },
        }
    }

    // Every timestamp up to the base is marked for good.
    pub fn base(&self) -> u32
        ensures { result ≡ self.now.span.base }
    {
        self.span.base
    }

    // Bit k − 1 is the mark of timestamp base + k.
    pub fn marks(&self) -> u64
        ensures { result ≡ self.now.span.marks }
    {
        self.span.marks
    }

    // Whether the timestamp is one of the 64 above the base, and not marked.
    pub fn is_free(&self, timestamp: u32) -> bool
        ensures { result ≡ free self.now.span timestamp }
    {
        self.span.free_bit(timestamp).is_some()
    }

    // A timestamp that is not free changes nothing.
    pub fn mark(&mut self, timestamp: u32)
        ensures { self.new ≡ after self.old timestamp }
    {
        self.span.mark(timestamp);
    }
}
