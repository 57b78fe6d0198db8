// What a batch may be: 64 steps, an MTU of 247, a value of 244 bytes that lies inside the lent ones.
use crate::known;
use central::State;
use central_answers::Answer;
use script_rules::Batch;
use state::{Sent, Step};
use time::{Micros, Millis};

const WAIT: Step = Step::Wait { ms: Millis(1) };

const WRITE: Step = Step::Write {
    characteristic: known::LEVEL,
    with_response: true,
};

// The number of a fresh state.
fn fresh() -> u64 {
    known::number(central::fresh::fresh())
}

// What a fresh state's call gave, and whether it left the store as it was.
fn answered(what: &[u8], a: Answer<State, Sent>, store: bool) {
    let left = a.state;
    tool_say::text(what);
    known::refusal(a.refusal);
    tool_say::told(b", waiting ", left.core.counts.waiting as u64, b"");
    known::kept(known::number(left) == fresh(), store);
}

// A batch is given to a fresh state.
fn push(what: &[u8], steps: Batch) {
    let mut store = [0u8; state_places::STORE_SIZE];
    let mut out = [0u8; state_places::OUTPUT_SIZE];
    let values = [7u8; 300];
    let stored = tool_digest::of_lent(&store);
    let fresh = central::fresh::fresh();
    let a = central::push_steps(fresh, &mut store, &mut out, Micros(0), steps, &values);
    answered(what, a, tool_digest::of_lent(&store) == stored);
}

fn exchange(mtu: u16) -> Batch {
    known::alike(Step::ExchangeMtu { mtu }, 2, 0, 0)
}

fn write(place: usize, len: usize) -> Batch {
    known::alike(WRITE, 2, place, len)
}

pub fn all() {
    tool_say::line(b"A batch");
    push(b"  of 64 steps", known::alike(WAIT, 64, 0, 0));
    push(b"  of 65 steps", known::alike(WAIT, 65, 0, 0));
    push(b"  with an MTU of 247", exchange(247));
    push(b"  with an MTU of 248", exchange(248));
    push(b"  with a value of 244 bytes", write(0, 244));
    push(b"  with a value of 245 bytes", write(0, 245));
    push(
        b"  with a value that ends with the lent bytes",
        write(100, 200),
    );
    push(b"  with a value that ends a byte later", write(101, 200));
}
