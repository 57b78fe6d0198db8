// What a loop answers: what its calls gave, and what stands at its end. The harness has the same of the Rust.
use state_core::Core;
use state_refusals::Refusal;
use tool_digest::more;

// What a call refused and gave.
pub fn call(refusal: Option<Refusal>, given: usize) -> u64 {
    u64::from(state_refusals::told_number(refusal)).wrapping_add(given as u64)
}

// What a batch left.
pub fn batch(refusal: Option<Refusal>, left: Core) -> u64 {
    call(refusal, left.counts.waiting).wrapping_add(left.counts.results as u64)
}

// What a link left when it came and when it went.
pub fn link(came: Option<Refusal>, met: Core, went: Option<Refusal>, parted: Core) -> u64 {
    let first = call(came, met.bearer.link.handle as usize);
    first.wrapping_add(call(went, parted.counts.results))
}

// What stands.
pub fn with_core(sum: u64, core: Core) -> u64 {
    let n = core.counts;
    let k = core.counters;
    let a = more(more(sum, n.waiting as u64), n.results as u64);
    let b = more(more(a, n.characteristics as u64), n.notifications as u64);
    let c = more(more(b, k.next_index as u64), k.notified);
    let d = more(more(c, k.wait_from), core.reports as u64);
    more(d, core.key_count as u64)
}
