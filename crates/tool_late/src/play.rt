// One call after another, each told with what it sent and how steps ended in it.
use crate::scripts;
use central::State;
use central_answers::Answer;
use script_rules::Batch;
use state::{Sent, Step};
use state_core::Core;
use time::Micros;

const HANDLE: u16 = 0x40;

// What happens, behind its time.
fn happens(at: Micros, words: &[u8]) {
    tool_tells::moment(at);
    tool_say::line(words);
}

// A step that is handed in.
fn tell_step(index: u32, step: Step) {
    tool_say::told(b"    step ", index as u64, b": ");
    tool_tells::steps::step(step);
    tool_say::line(b"");
}

// So many steps have ended.
fn ended(core: Core) -> u32 {
    if core.running.active {
        return core.running.index;
    }
    core.counters.next_index
}

// The library's state, and what is lent beside it.
#[derive(Drop)]
pub struct Library<'a> {
    pub state: State,
    pub store: &'a mut [u8],
    pub out: &'a mut [u8],
}

impl Library<'_> {
    // ---- calls that are not told

    pub fn push(&mut self, at: Micros, steps: Batch) -> Answer<Core, Sent> {
        script_batch::push_steps(
            self.state.core,
            &mut self.state.tables,
            self.store,
            self.out,
            at,
            steps,
            b"",
        )
    }

    // A whole frame of the head comes in.
    pub fn receive(&mut self, at: Micros, frame: &[u8]) -> Answer<Core, Sent> {
        link_call::on_fragment(
            self.state.core,
            &mut self.state.tables,
            self.store,
            self.out,
            at,
            true,
            frame,
        )
    }

    pub fn leave(&mut self, a: Answer<Core, Sent>) {
        self.state.core = a.state;
    }

    // ---- what a call gave

    // How a step ended, where it did in the call that found this core.
    fn tell_end(&self, before: Core, index: u32) {
        if (ended(before)..ended(self.state.core)).contains(&index) {
            let given = state_readers::result(
                self.state.core,
                &self.state.tables,
                self.store,
                index,
            );
            tool_tells::result(index, given, self.store);
        }
    }

    // The story has three steps behind its discovery.
    fn tell(&mut self, a: Answer<Core, Sent>) {
        let before = self.state.core;
        self.leave(a);
        tool_tells::codes::refused(a.refusal);
        tool_tells::sent(a.gives, self.out);
        for index in 1..=3 {
            self.tell_end(before, index);
        }
    }

    // ---- what happens

    pub fn connect(&mut self, at: Micros) {
        happens(at, b": a link to the head comes up");
        let a = script_events::on_connected(
            self.state.core,
            &mut self.state.tables,
            self.store,
            self.out,
            HANDLE,
            at,
        );
        self.tell(a);
    }

    pub fn disconnect(&mut self, at: Micros) {
        happens(at, b": the link is gone");
        let a = script_events::on_disconnected(
            self.state.core,
            &mut self.state.tables,
            self.store,
            at,
        );
        self.state.core = a.state;
    }

    pub fn read_both(&mut self, at: Micros) {
        happens(at, b": the collector hands in a script");
        tell_step(1, scripts::READ_14);
        tell_step(2, scripts::READ_15);
        let a = self.push(at, scripts::both());
        self.tell(a);
    }

    pub fn read_bay_15(&mut self, at: Micros) {
        happens(at, b": the collector hands in what is left of it");
        tell_step(3, scripts::READ_15);
        let a = self.push(at, scripts::bay_15());
        self.tell(a);
    }

    pub fn ring(&mut self, at: Micros) {
        happens(at, b": the timer that the library asked for");
        let a = script_events::on_timer(
            self.state.core,
            &mut self.state.tables,
            self.store,
            self.out,
            at,
        );
        self.tell(a);
    }

    fn hear(&mut self, at: Micros, frame: &[u8]) {
        tool_tells::heard(frame);
        let a = self.receive(at, frame);
        self.tell(a);
    }

    pub fn bay_14_answers(&mut self, at: Micros) {
        happens(at, b": the head answers the read of bay 14");
        self.hear(at, b"\x05\x00\x04\x00\x0Bfree");
    }

    pub fn bay_15_answers(&mut self, at: Micros) {
        happens(at, b": the head answers the read of bay 15");
        self.hear(at, b"\x06\x00\x04\x00\x0Btaken");
    }
}
