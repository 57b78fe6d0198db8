// Bay 15's read and bay 14's late answer, told twice: in the old mode and in strict mode.
#![tactic(auto)]

mod play;
mod scripts;
mod story;

use play::Library;
use state::Options;

fn heading(words: &[u8]) {
    tool_say::line(b"");
    tool_say::line(words);
}

fn scene() {
    tool_say::line(
        b"One head serves two bays: ff14 is bay 14, which is free, and ff15 is bay 15, where a car stands. The collector reads both. The head",
    );
    tool_say::line(
        b"takes 31 s to answer the first read, and the library waits 30 s for an answer. Nothing in an answer tells which read it is for.",
    );
}

fn old_rule() {
    heading(
        b"So bay 15 is shown free, and a car stands there. Scope document 01 allows it: after a timeout the next step may send at once on the",
    );
    tool_say::line(
        b"same link. The Core Specification does not: no more requests or commands go out on that bearer (Vol 3 Part F 3.3.3).",
    );
}

fn strict_rule() {
    heading(
        b"So nothing is asked on the link on which bay 14's answer may still come: bay 15's step ends at once, and the collector reads it on",
    );
    tool_say::line(
        b"the next link. Only steps that could send ATT end so: waits go on, and what the head asks is answered.",
    );
}

// A fresh state, with the mode that is chosen.
fn begin<'a>(strict: bool, store: &'a mut [u8], out: &'a mut [u8]) -> Library<'a> {
    Library {
        state: central::fresh::fresh_with(Options { strict }),
        store,
        out,
    }
}

fn main() {
    let mut store = [0u8; state_places::STORE_SIZE];
    let mut out = [0u8; state_places::OUTPUT_SIZE];
    scene();
    heading(b"The old mode");
    story::old(&mut begin(false, &mut store, &mut out));
    old_rule();
    heading(b"Strict mode");
    story::strict(&mut begin(true, &mut store, &mut out));
    strict_rule();
}
