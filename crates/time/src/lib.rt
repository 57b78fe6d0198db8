// The two units of time, and the one way from a step's milliseconds to the clock's microseconds.
#![tactic(auto)]

ghost use Rattle.std.specs.Prelude.{◌≡◌};
ghost use Rattle.time.specs.Clock.{later, deadline, att_deadline, too_late};

// A wait that a step names.
#[derive(Clone, Copy, PartialEq, Eq, PartialOrd, Ord)]
pub struct Millis(pub u32);

// A moment of the clock, or a span of it.
#[derive(Clone, Copy, PartialEq, Eq, PartialOrd, Ord)]
pub struct Micros(pub u64);

const MICROS_PER_MILLI: u64 = 1_000;

// The latest clock that a call takes: 2^62 µs.
pub const LATEST: Micros = Micros(1 << 62);

// The ATT transaction timeout: 30 seconds.
pub const ATT_TIMEOUT: Micros = Micros(30_000_000);

// The moment `by` after `now`; a sum beyond the largest clock is that clock.
pub fn later(now: Micros, by: Micros) -> Micros
    ensures { result ≡ later now by }
{
    Micros(now.0.saturating_add(by.0))
}

// The moment at which a wait that begins now runs out.
pub fn deadline(now: Micros, wait: Millis) -> Micros
    ensures { result ≡ deadline now wait }
{
    later(now, Micros(wait.0 as u64 * MICROS_PER_MILLI))
}

// The moment at which a request that goes out now is given up.
pub fn att_deadline(now: Micros) -> Micros
    ensures { result ≡ att_deadline now }
{
    later(now, ATT_TIMEOUT)
}

// Whether a clock is one that no call takes.
pub fn too_late(now: Micros) -> bool
    ensures { result ≡ too_late now }
{
    LATEST < now
}
