// The connection parameter rule of an LE connection parameter update.
#![tactic(auto)]

ghost use Rattle.std.specs.Prelude.{◌≡◌};
ghost use Rattle.l2cap_params.specs.Params.{interval_in_range, timeout_in_range, good_params};

// Intervals, in units of 1.25 ms.
const INTERVAL_LEAST: u16 = 6;

const INTERVAL_MOST: u16 = 3200;

// Connection events that a peripheral may skip.
const LATENCY_MOST: u16 = 499;

// Supervision timeouts, in units of 10 ms.
const TIMEOUT_LEAST: u16 = 10;

const TIMEOUT_MOST: u16 = 3200;

// A timeout holds twice an interval: 10 ms x timeout > 2 x 1.25 ms x interval is 4 x timeout > interval.
const INTERVALS_PER_TIMEOUT: u32 = 4;

// Parameters of a connection: the interval between its events in units of 1.25 ms, how many of them a peripheral may skip, and the
// supervision timeout in units of 10 ms.
#[derive(Clone, Copy)]
pub struct Parameters {
    pub interval: u16,
    pub latency: u16,
    pub timeout: u16,
}

// What a connection parameter update request asks for: an interval from min to max, and the rest as above.
#[derive(Clone, Copy)]
pub struct Request {
    pub min: u16,
    pub max: u16,
    pub latency: u16,
    pub timeout: u16,
}

fn is_interval(interval: u16) -> bool
    ensures { result ≡ interval_in_range interval }
{
    (INTERVAL_LEAST..=INTERVAL_MOST).contains(&interval)
}

fn is_timeout(timeout: u16) -> bool
    ensures { result ≡ timeout_in_range timeout }
{
    (TIMEOUT_LEAST..=TIMEOUT_MOST).contains(&timeout)
}

impl Request {
    // Whether what it asks for is acceptable.
    pub fn is_good(self) -> bool
        ensures { result ≡ good_params self.min self.max self.latency self.timeout }
    {
        is_interval(self.min)
            & is_interval(self.max)
            & (self.min <= self.max)
            & (self.latency <= LATENCY_MOST)
            & is_timeout(self.timeout)
            & ((1 + self.latency as u32) * (self.max as u32)
                < INTERVALS_PER_TIMEOUT * (self.timeout as u32))
    }
}

// Whether the four numbers of a connection parameter request are acceptable.
// Kept: beside Request::is_good, since C's export and docs/CALLS.md go by it.
pub fn params_good(min: u16, max: u16, latency: u16, timeout: u16) -> bool
    ensures { result ≡ good_params min max latency timeout }
{
    Request {
        min,
        max,
        latency,
        timeout,
    }
    .is_good()
}
