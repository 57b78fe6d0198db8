// A batch of steps in words that C lends, 12 words a step. A word that is not lent is 0.
#![tactic(auto)]

ghost use Rattle.std.specs.Prelude.{◌≡◌, ◌%◌, ◌≤◌, get_or};
ghost use Rattle.words.specs.Words.{two16, two32};
ghost use Rattle.c_core.specs.Layout.{flag_in};
ghost use Rattle.c_steps.specs.Steps.{most_words, flat_at, placed_at, batch_in};

use script_rules::{Batch, Placed};
use state::Step;
use time::Millis;
use uuid_value::Uuid;
use words::Flat;

// How many words a step has.
pub const SIZE: usize = 12;

// Behind the step taken apart, 10 words in the order of a core's: the place of its value in the lent bytes, and its length.
const PLACE: usize = 10;

const LEN: usize = 11;

fn word(steps: &[u64], i: usize) -> u64
    ensures { result ≡ get_or steps.now i 0 }
{
    steps.get(i).copied().unwrap_or(0)
}

fn byte(steps: &[u64], i: usize) -> u8
    ensures { result ≡ get_or steps.now i 0 % 256 }
{
    (word(steps, i) % c_core::IN_8_BITS) as u8
}

fn half(steps: &[u64], i: usize) -> u16
    ensures { result ≡ get_or steps.now i 0 % two16 }
{
    (word(steps, i) % c_core::IN_16_BITS) as u16
}

fn long(steps: &[u64], i: usize) -> u32
    ensures { result ≡ get_or steps.now i 0 % two32 }
{
    (word(steps, i) % c_core::IN_32_BITS) as u32
}

fn bit(steps: &[u64], i: usize) -> bool
    ensures { result ≡ flag_in (get_or steps.now i 0) }
{
    word(steps, i) % 2 == 1
}

// A step taken apart, from its first word on.
fn flat_at(steps: &[u64], at: usize) -> Flat
    requires { at ≤ most_words }
    ensures { result ≡ flat_at steps.now at }
{
    let kind = byte(steps, at);
    let flag = bit(steps, at + 1);
    let ms = long(steps, at + 2);
    let size = half(steps, at + 3);
    let low = word(steps, at + 4);
    let high = word(steps, at + 5);
    let aim = byte(steps, at + 6);
    let latency = half(steps, at + 7);
    let timeout = half(steps, at + 8);
    let interval = half(steps, at + 9);
    Flat {
        kind,
        flag,
        ms: Millis(ms),
        size,
        uuid: Uuid { low, high },
        aim,
        latency,
        timeout,
        interval,
    }
}

// A step with its value's place, from its first word on.
fn placed_at(steps: &[u64], at: usize) -> Placed
    requires { at ≤ most_words }
    ensures { result ≡ placed_at steps.now at }
{
    let f = flat_at(steps, at);
    let step = words_step::step_of(f);
    let place = word(steps, at + PLACE) as usize;
    let len = word(steps, at + LEN) as usize;
    Placed { step, place, len }
}

// The batch of count steps that the words say.
pub fn batch_of(steps: &[u64], count: usize) -> Batch
    ensures { result ≡ batch_in steps.now count }
{
    let none = Placed {
        step: Step::Scan { ms: Millis(0) },
        place: 0,
        len: 0,
    };
    let mut all = [none; 64];
    for i in 0..64 {
        all[i] = placed_at(steps, SIZE * i);
    }
    Batch { steps: all, count }
}
