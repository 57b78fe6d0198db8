// Why a call is refused, and which refusal is given where more than one applies.
#![tactic(auto)]

ghost use Rattle.std.specs.Prelude.{◌≡◌, ◌&&◌, ◌+◌, eqb, leb};
ghost use Rattle.bytes_base.specs.Choice.{pick};
ghost use Rattle.state_places.specs.Sizes.{store_size, output_size, frame_size};
ghost use Rattle.state_refusals.specs.Refusals.{accepted, counter_full, long_frame, first_refusal, number, gate_number, told_number};

// Why a call is refused, in order of test, under the numbers that C knows.
#[derive(Clone, Copy, PartialEq, Eq)]
pub enum Refusal {
    // The state isn't fit.
    Unfit = 1,
    // The store or the output has another size.
    WrongSize = 2,
    // The time is above 2^62 µs.
    LateTime = 3,
    // A batch, or a step of it, is too large.
    BadBatch = 4,
    // A counter would pass its end.
    CounterFull = 5,
    // Advertising or scan response data is over 31 bytes.
    LongData = 6,
    // The held frame would exceed 251 bytes.
    LongFrame = 7,
    // A scan has asked 128 advertisers.
    KeysFull = 8,
}

impl Refusal {
    pub fn number(self) -> u8
        ensures { result ≡ number self }
    {
        self as u8
    }
}

// The number that a call tells: 0 if it is not refused.
pub fn told_number(refusal: Option<Refusal>) -> u8
    ensures { result ≡ told_number refusal }
{
    match refusal {
        None => 0,
        Some(why) => why.number(),
    }
}

// Refusals 1 to 3: the first that applies.
pub fn first_refusal(fit: bool, sized: bool, timely: bool) -> Result<(), Refusal>
    ensures { gate_number result ≡ first_refusal fit sized timely }
{
    if !fit {
        return Err(Refusal::Unfit);
    }
    if !sized {
        return Err(Refusal::WrongSize);
    }
    if !timely {
        return Err(Refusal::LateTime);
    }
    Ok(())
}

// Whether a call that may send is lent a store of the one size, and room for all frames.
pub fn sizes_fit(store_len: usize, out_len: usize) -> bool
    ensures { result ≡ (eqb store_len store_size && leb output_size out_len) }
{
    (store_len == state_places::STORE_SIZE) & (state_places::OUTPUT_SIZE <= out_len)
}

// Whether n bytes more stay within the held frame's place.
pub fn frame_fits(there: usize, n: usize) -> bool
    ensures { result ≡ leb (there + n) frame_size }
{
    if state_places::MAX_FRAME < n {
        return false;
    }
    there <= state_places::MAX_FRAME - n
}

// Refusals 5 and 7 of a fragment, in their order.
pub fn fragment_refusal(full: bool, fits: bool) -> Result<(), Refusal>
    ensures { gate_number result ≡ pick full counter_full (pick fits accepted long_frame) }
{
    if full {
        return Err(Refusal::CounterFull);
    }
    if !fits {
        return Err(Refusal::LongFrame);
    }
    Ok(())
}
