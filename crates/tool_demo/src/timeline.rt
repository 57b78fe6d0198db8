// A part of the night as a timeline: a line for each step where it begins, with its end and how it ended, and for each frame.
use crate::{play, steps, story};
use central::State;
use play::Turn;
use state::Step;
use state_readers::Given;
use state_refusals::Refusal;
use story::{Part, What};
use time::Micros;

fn heading() {
    tool_say::text(b"begins");
    tool_say::spaces(6, tool_say::clock::COLUMN);
    tool_say::text(b"ends");
    tool_say::spaces(4, tool_say::clock::COLUMN);
    tool_say::line(b"step");
}

fn link(at: Micros, links: u64, words: &[u8]) {
    tool_tells::mark(at, b"     -- ");
    tool_say::told(b"link ", links, words);
}

// What happens that a timeline shows.
fn happened(at: Micros, what: What, links: u64, s: &[u8]) {
    match what {
        What::Script => heading(),
        What::Advert { head: _ } => (),
        What::Response => (),
        What::Timer => (),
        What::Connected => link(at, links, b" comes up\n"),
        What::Frame { why: _ } => tool_tells::heard_at(at, s),
        What::Disconnected => link(at, links, b" is gone\n"),
    }
}

// A number of up to two digits, and what the step is to do.
fn named(index: u32, step: Step) {
    if index < 10 {
        tool_say::text(b" ");
    }
    tool_say::told(b"", index as u64, b"   ");
    tool_tells::steps::step(step);
}

fn line(at: Micros, index: u32, step: Step, g: Result<Option<Given>, Refusal>) {
    tool_say::clock::column(at.0);
    match g {
        Err(why) => tool_tells::codes::refused(Some(why)),
        Ok(None) => {
            tool_say::spaces(0, tool_say::clock::COLUMN);
            named(index, step);
            tool_say::line(b"");
        }
        Ok(Some(g)) => {
            tool_say::clock::column(g.at.0);
            named(index, step);
            tool_say::text(b": ");
            tool_tells::codes::status(g.status);
            tool_say::line(b"");
        }
    }
}

// Step `index` of a script whose first step has the number `first`.
fn step_of(part: Part, first: u32, index: u32) -> Step {
    steps::step(part, index.wrapping_sub(first) as usize)
}

// The steps that began in a turn, of a script whose end `done` knows.
fn begun(t: &Turn, done: State, store: &[u8]) {
    let night = &t.night;
    for index in t.before.core.counters.next_index..night.state.core.counters.next_index {
        line(
            t.happening.at,
            index,
            step_of(night.part, night.first_step, index),
            central::result(done, store, index),
        );
    }
}

pub fn tell(t: &Turn, done: State, store: &[u8], out: &[u8]) {
    let h = t.happening;
    happened(h.at, h.what, t.night.state.core.counters.links, t.data);
    begun(t, done, store);
    tool_tells::sent_at(h.at, t.sent, out);
}
