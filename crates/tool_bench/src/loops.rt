// Loops of one call each, n times. Each answers one number of what its calls gave and left.
use crate::calls::Calls;
use crate::{hear, play, told};
use time::Micros;

// Advertisers speak in turn, so many of them.
pub fn advertising<C: Calls>(c: &mut C, n: u32, advertisers: u32, data: &[u8]) -> u64 {
    let mut sum = 0u64;
    let mut who = 0;
    for i in 0..n {
        let given = c.on_advertising(Micros(u64::from(i)), hear::address(who), data);
        sum = sum.wrapping_add(given);
        who = hear::after(who, advertisers);
    }
    told::with_core(sum, c.core())
}

// The same batch, each on an idle state: of waits, or of steps that end at once.
pub fn batches<C: Calls>(c: &mut C, n: u32, ends: bool, values: &[u8]) -> u64 {
    let steps = play::batch(ends);
    let mut sum = 0u64;
    for i in 0..n {
        let given = c.push_steps(Micros(u64::from(i)), steps, values);
        sum = sum.wrapping_add(given);
    }
    sum
}

// Timer calls, the first at 1 ms and each 1 ms after the last.
pub fn timers<C: Calls>(c: &mut C, n: u32) -> u64 {
    let mut sum = 0u64;
    for i in 0..n {
        let ms = u64::from(i) + 1;
        sum = sum.wrapping_add(c.on_timer(Micros(ms * 1000)));
    }
    told::with_core(sum, c.core())
}

// Links on an idle state: each comes, and goes again.
pub fn links<C: Calls>(c: &mut C, n: u32) -> u64 {
    let mut sum = 0u64;
    for i in 0..n {
        sum = sum.wrapping_add(c.on_link(Micros(u64::from(i))));
    }
    sum
}

// The same fragment.
pub fn fragments<C: Calls>(c: &mut C, n: u32, start: bool, fragment: &[u8]) -> u64 {
    let mut sum = 0u64;
    for i in 0..n {
        let given = c.on_fragment(Micros(u64::from(i)), start, fragment);
        sum = sum.wrapping_add(given);
    }
    told::with_core(sum, c.core())
}
