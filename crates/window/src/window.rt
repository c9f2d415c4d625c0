// The window of one client: a span whose lowest mark is not set, and all of whose marks are of timestamps below 2^32.
ghost use Rattle.std.specs.Prelude.{◌≡◌, ◌-◌, ◌%◌, ◌^◌, ◌<◌, min};

use crate::span::Span;

#[derive(Clone, Copy)]
pub struct Window {
    pub(crate) span: Span,
    ghost low: { span.marks % 2 ≡ 0 },
    ghost fits: { span.marks < 2 ^ min 64 (4294967295 - span.base) },
}
