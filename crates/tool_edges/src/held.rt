// What is held of a frame is 251 bytes at most; with more it is refused and dropped.
use crate::known;
use central::State;
use central_answers::Answer;
use state::Sent;
use time::Micros;

const LONGEST: usize = 251;

const TOO_LONG: usize = 252;

// Bytes of a notification's frame before its value.
const HEAD: usize = 7;

// A fragment of a frame of so many bytes: one that leaves out the last byte and starts the frame, or the last byte.
struct Part {
    text: &'static [u8],
    length: usize,
    start: bool,
}

// Of a frame of 252 bytes and of one of 251; of the first the last byte once more.
static PARTS: [Part; 5] = [
    Part {
        text: b"Of a frame of 252 bytes the first 251",
        length: TOO_LONG,
        start: true,
    },
    Part {
        text: b"  the last one",
        length: TOO_LONG,
        start: false,
    },
    Part {
        text: b"  the last one again, with nothing held",
        length: TOO_LONG,
        start: false,
    },
    Part {
        text: b"Of a frame of 251 bytes the first 250",
        length: LONGEST,
        start: true,
    },
    Part {
        text: b"  the last one",
        length: LONGEST,
        start: false,
    },
];

// A notification on the known handle that fills so much of the bytes.
fn fill(frame: &mut [u8], n: usize) {
    let value = [7u8; TOO_LONG - HEAD];
    if HEAD <= n {
        l2cap::att_frame(
            frame,
            0,
            att_pdu::op::HANDLE_VALUE_NTF,
            known::LEVEL_HANDLE,
            &value,
            0,
            n - HEAD,
        );
    }
}

fn fragment(frame: &[u8], start: bool) -> &[u8] {
    match frame {
        [rest @ .., _] if start => rest,
        [.., _] => &frame[frame.len() - 1..],
        [] => frame,
    }
}

// The number of a state but for the number of bytes held.
fn rest(s: State) -> u64 {
    let mut o = s;
    o.core.bearer.held = 0;
    known::number(o)
}

fn answered(a: Answer<State, Sent>, text: &[u8], before: u64) -> State {
    let left = a.state;
    tool_say::text(text);
    known::refusal(a.refusal);
    tool_say::told(b", held ", left.core.bearer.held as u64, b"");
    tool_say::told(b", notified ", left.core.counters.notified, b"");
    known::same(b"; the rest of the state", rest(left) == before);
    left
}

fn kept(store: bool, out: bool) {
    known::same(b", store", store);
    known::same(b", output", out);
    tool_say::line(b"");
}

fn hear(s: State, store: &mut [u8], out: &mut [u8], part: &Part) -> Answer<State, Sent> {
    let mut frame = [0u8; TOO_LONG];
    fill(&mut frame, part.length);
    let whole = frame.get(..part.length).unwrap_or(&[]);
    let bytes = fragment(whole, part.start);
    central::on_fragment(s, store, out, Micros(1000), part.start, bytes)
}

// A fragment comes in, and what that did.
fn give(s: State, store: &mut [u8], out: &mut [u8], part: &Part) -> State {
    let stored = tool_digest::of_lent(store);
    let written = tool_digest::of_lent(out);
    let left = answered(hear(s, store, out, part), part.text, rest(s));
    kept(
        tool_digest::of_lent(store) == stored,
        tool_digest::of_lent(out) == written,
    );
    left
}

pub fn all() {
    let mut store = [0u8; state_places::STORE_SIZE];
    let mut out = [0u8; state_places::OUTPUT_SIZE];
    let mut s = known::linked(&mut store, &mut out);
    for part in &PARTS {
        s = give(s, &mut store, &mut out, part);
    }
}
