// Plays a trace of calls from standard input on the port, and writes one line for each record before the next is read
// (docs/TRACE.md).
#![tactic(auto)]

mod play;

use central::State;
use tool_lines::line;
use tool_traces::record;

// A line is written out in pieces of at most so many bytes.
const ROOM: usize = 65_536;

// The next record is read, played and answered; whether there was one, and its line could be written.
fn turn(
    state: &mut State,
    body: &mut [u8],
    store: &mut [u8],
    out: &mut [u8],
    to: &mut [u8],
) -> bool {
    match record::read_next(body) {
        Ok(Some(next)) => {
            let body = body.get(..next.len).unwrap_or(&[]);
            play::play(next.tag, body, state, store, out, to)
        }
        Ok(None) => false,
        Err(why) => {
            line::write(to, b"bad", |line| line.word(why.word().as_bytes()));
            false
        }
    }
}

// A proved loop has to end, and nothing says that the input does: the turns are counted up to a number that no run reaches.
fn run(state: &mut State, body: &mut [u8], store: &mut [u8], out: &mut [u8], to: &mut [u8]) {
    for _ in 0..u64::MAX {
        if !turn(state, body, store, out, to) {
            break;
        }
    }
}

fn main() {
    let mut state = central::fresh::fresh_with(play::OLD_MODE);
    let mut body = [0u8; record::MOST_BODY];
    let mut store = [0u8; state_places::STORE_SIZE];
    let mut out = [0u8; state_places::OUTPUT_SIZE];
    let mut to = [0u8; ROOM];
    run(&mut state, &mut body, &mut store, &mut out, &mut to);
}
