// A place in bytes, and the one test of one.
#![tactic(auto)]

ghost use Rattle.std.specs.Prelude.{◌≡◌, ◌+◌, leb};

// Bytes of some data: so many of them, from a place on.
#[derive(Clone, Copy)]
pub struct Span {
    pub at: usize,
    pub len: usize,
}

// Whether the n bytes from at on lie within len; at + n may be more than a usize holds.
pub fn is_inside(len: usize, at: usize, n: usize) -> bool
    ensures { result ≡ leb (at + n) len }
{
    n <= len && at <= len - n
}
