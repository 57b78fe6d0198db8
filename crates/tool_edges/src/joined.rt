// A wait looks for its bytes in all that one handle notified, joined.
use crate::known;
use central::State;
use notifications::Age;
use state::Step;
use state_readers::Given;
use state_refusals::Refusal;
use time::{Micros, Millis};

const AWAITED: [u8; 2] = [0x52, 0x45];

// Notifications: `46 52` and `45 45` on the characteristic's handle, `45 45` on another.
const FIRST: [u8; 9] = [0x05, 0x00, 0x04, 0x00, 0x1B, 0x03, 0x00, 0x46, 0x52];

const SECOND: [u8; 9] = [0x05, 0x00, 0x04, 0x00, 0x1B, 0x03, 0x00, 0x45, 0x45];

const ELSEWHERE: [u8; 9] = [0x05, 0x00, 0x04, 0x00, 0x1B, 0x06, 0x00, 0x45, 0x45];

const WAIT: Step = Step::WaitNotification {
    characteristic: known::LEVEL,
    within_ms: Millis(1000),
    age: Age::Any,
};

fn begun(bytes: &[u8], why: Option<Refusal>) {
    tool_say::told(
        b"A wait on handle ",
        known::LEVEL_HANDLE as u64,
        b" for bytes that contain",
    );
    tool_say::bytes(bytes);
    known::refusal(why);
    tool_say::line(b"");
}

// The wait begins.
fn begin(store: &mut [u8], out: &mut [u8]) -> State {
    let bytes = AWAITED;
    let s = known::linked(store, out);
    let steps = known::alike(WAIT, 1, 0, bytes.len());
    let a = central::push_steps(s, store, out, Micros(1000), steps, &bytes);
    begun(&bytes, a.refusal);
    a.state
}

// Whether the wait is over.
fn told(why: Option<Refusal>, g: Result<Option<Given>, Refusal>, store: &[u8]) {
    tool_say::told(
        b"    refusal ",
        state_refusals::told_number(why) as u64,
        b"\n",
    );
    if !tool_tells::result(0, g, store) {
        tool_say::line(b"    step 0 waits on");
    }
}

// A notification comes in.
fn hear(s: State, store: &mut [u8], out: &mut [u8], at: Micros, frame: &[u8]) -> State {
    tool_tells::heard(frame);
    let a = central::on_fragment(s, store, out, at, true, frame);
    let left = a.state;
    told(a.refusal, central::result(left, store, 0), store);
    left
}

fn pair(second: &[u8]) {
    let mut store = [0u8; state_places::STORE_SIZE];
    let mut out = [0u8; state_places::OUTPUT_SIZE];
    let first = FIRST;
    let s = begin(&mut store, &mut out);
    let a = hear(s, &mut store, &mut out, Micros(2000), &first);
    hear(a, &mut store, &mut out, Micros(3000), second);
}

pub fn all() {
    let second = SECOND;
    let elsewhere = ELSEWHERE;
    pair(&second);
    pair(&elsewhere);
}
