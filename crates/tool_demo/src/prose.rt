// A part of the night in plain words: what happens, each frame both ways, how each step ends.
use crate::story::{Part, What, Why};
use crate::{play, steps, waits};
use play::{Night, Turn};
use radio_match::AdvAction;
use script_rules::Batch;

// The steps of a batch, numbered from a number on.
fn script(b: Batch, from: u32) {
    for (i, placed) in b.steps.iter().take(b.count).enumerate() {
        let number = u64::from(from).wrapping_add(i as u64);
        tool_say::told(b"    step ", number, b": ");
        tool_tells::steps::step(placed.step);
        tool_say::line(b"");
    }
}

fn handed_in(part: Part, first_step: u32) {
    match part {
        Part::Evening => tool_say::line(b": the collector hands in a script"),
        Part::AnyAge => tool_say::line(b": six hours later it hands in another"),
        Part::Fresh => tool_say::line(b": it hands in the same with aged waits"),
        Part::Late => tool_say::line(b": it hands in one with aged waits and a pause"),
    }
    script(steps::of(part), first_step);
}

fn data_of(words: &[u8], s: &[u8]) {
    tool_say::text(words);
    tool_say::bytes(s);
    tool_say::line(b"");
}

fn advert(head: bool, s: &[u8]) {
    if head {
        data_of(b": the head advertises", s);
    } else {
        data_of(b": a stranger advertises", s);
    }
}

// A frame that is longer than a fragment comes in two.
fn fragments(n: usize) {
    if play::FRAGMENT < n {
        tool_say::told(
            b"      the first ",
            play::FRAGMENT as u64,
            b" bytes of it come in\n",
        );
        tool_say::told(
            b"      the last ",
            (n - play::FRAGMENT) as u64,
            b" bytes of it come in\n",
        );
    }
}

fn frame(why: Why, s: &[u8]) {
    match why {
        Why::Answers => tool_say::line(b": the head answers"),
        Why::Taken => tool_say::line(b": a car comes, the head notifies"),
        Why::Free => tool_say::line(b": the car leaves, the head notifies"),
    }
    tool_tells::heard(s);
    fragments(s.len());
}

fn happened(night: &Night, what: What, s: &[u8]) {
    let links = night.state.core.counters.links;
    match what {
        What::Script => handed_in(night.part, night.first_step),
        What::Advert { head } => advert(head, s),
        What::Response => data_of(b": the head responds to the scan", s),
        What::Timer => tool_say::line(b": the timer that the library asked for"),
        What::Connected => tool_say::told(b": link ", links, b" to the head comes up\n"),
        What::Frame { why } => frame(why, s),
        What::Disconnected => tool_say::told(b": link ", links, b" is gone\n"),
    }
}

fn action(x: AdvAction) {
    match x {
        AdvAction::Nothing => tool_say::line(b"    nothing is done about it"),
        AdvAction::ScanRequest => tool_say::line(b"    asks for its scan response"),
        AdvAction::Connect(_) => tool_say::line(b"    asks for a connection"),
    }
}

// What an advertisement leads to.
fn acted(what: What, x: AdvAction) {
    match what {
        What::Advert { head: _ } => action(x),
        _ => (),
    }
}

pub fn tell(t: &Turn, store: &[u8], out: &[u8]) {
    let h = t.happening;
    tool_tells::moment(h.at);
    happened(&t.night, h.what, t.data);
    acted(h.what, t.action);
    tool_tells::codes::refused(t.refusal);
    tool_tells::sent(t.sent, out);
    waits::tell(t.before, t.night.state, store, h.at);
}
