// A Write needs value + 3 <= MTU.
use crate::known;
use central::State;
use central_answers::Answer;
use state::{Sent, Step};
use time::Micros;

const VALUE: [u8; 21] = [
    1, 2, 3, 4, 5, 6, 7, 8, 9, 10, 11, 12, 13, 14, 15, 16, 17, 18, 19, 20, 21,
];

fn told(kind: &[u8], len: usize, mtu: u16) {
    tool_say::text(kind);
    tool_say::told(b" of ", len as u64, b" bytes at an MTU of ");
    tool_say::number(mtu as u64);
}

// What the call told, and how step 0 ended, if it did.
fn answered(a: Answer<State, Sent>, store: &[u8], out: &[u8]) {
    known::refusal(a.refusal);
    tool_say::told(b", frames ", a.gives.frames as u64, b"\n");
    tool_tells::sent(a.gives, out);
    tool_tells::result(0, central::result(a.state, store, 0), store);
}

// A Write on a link just come up, so that its MTU is 23.
fn write(kind: &[u8], with_response: bool, len: usize) {
    let mut store = [0u8; state_places::STORE_SIZE];
    let mut out = [0u8; state_places::OUTPUT_SIZE];
    let step = Step::Write {
        characteristic: known::LEVEL,
        with_response,
    };
    let s = known::linked(&mut store, &mut out);
    told(kind, len, s.core.bearer.link.mtu);
    let steps = known::alike(step, 1, 0, len);
    let a = central::push_steps(s, &mut store, &mut out, Micros(1000), steps, &VALUE);
    answered(a, &store, &out);
}

pub fn all() {
    write(b"A Write with response", true, 20);
    write(b"A Write with response", true, 21);
    write(b"A Write without response", false, 20);
    write(b"A Write without response", false, 21);
}
