// What the calls of the radio share: the data's length and its refusal, and the refusal of a key too many.
#![tactic(auto)]

ghost use Rattle.std.specs.Prelude.{◌≡◌, ◌≤◌};
ghost use Rattle.state_places.specs.Sizes.{data_size};
ghost use Rattle.state_refusals.specs.Refusals.{gate_number};
ghost use Rattle.radio_rules.specs.Hearing.{then_data, no_key};

use state_refusals::Refusal;

// After refusals 1 to 3: the data's.
#[tactic(auto, unfolding(crate::specs::Hearing::then_data))]
pub fn then_data(gate: Result<(), Refusal>, len: usize) -> Result<(), Refusal>
    ensures { gate_number result ≡ then_data (gate_number gate) len }
{
    gate?;
    if state_places::MAX_DATA < len {
        return Err(Refusal::LongData);
    }
    Ok(())
}

// The length of data, as it is kept.
// Kept: a cast under a bound, since u8::try_from would answer a Result that is never an Err here.
pub fn narrow(n: usize) -> u8
    requires { n ≤ data_size }
    ensures { result ≡ n }
{
    n as u8
}

// Whether there is no place for a new key.
pub fn keys_full(new: bool, asked: usize) -> bool
    ensures { result ≡ no_key new asked }
{
    new & (asked == state_places::MAX_KEYS)
}
