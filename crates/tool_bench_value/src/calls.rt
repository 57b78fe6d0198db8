// The calls on a state that goes in by value and comes back.
use central::State;
use script_rules::Batch;
use state::Address;
use state_core::Core;
use time::Micros;
use tool_bench::calls::Calls;
use tool_bench::{hear, row, told};

#[derive(Drop)]
pub struct ByValue<'a> {
    pub state: State,
    pub store: &'a mut [u8],
    pub out: &'a mut [u8],
}

impl Calls for ByValue<'_> {
    fn core(&self) -> Core {
        self.state.core
    }

    fn push_steps(&mut self, at: Micros, steps: Batch, values: &[u8]) -> u64 {
        let a = central::push_steps(self.state, self.store, self.out, at, steps, values);
        told::batch(a.refusal, a.state.core)
    }

    fn on_timer(&mut self, at: Micros) -> u64 {
        let a = central::on_timer(self.state, self.store, self.out, at);
        self.state = a.state;
        told::call(a.refusal, 0)
    }

    fn on_link(&mut self, at: Micros) -> u64 {
        let met = central::on_connected(self.state, self.store, self.out, row::HANDLE, at);
        let parted = central::on_disconnected(met.state, self.store, at);
        self.state = parted.state;
        told::link(
            met.refusal,
            met.state.core,
            parted.refusal,
            parted.state.core,
        )
    }

    fn on_fragment(&mut self, at: Micros, start: bool, fragment: &[u8]) -> u64 {
        let a = central::on_fragment(self.state, self.store, self.out, at, start, fragment);
        self.state = a.state;
        told::call(a.refusal, a.gives.bytes)
    }

    fn on_advertising(&mut self, at: Micros, from: Address, data: &[u8]) -> u64 {
        let a = central::on_advertising(
            self.state,
            self.store,
            at,
            37,
            hear::ADV_IND,
            from,
            data,
            false,
        );
        self.state = a.state;
        told::call(a.refusal, hear::number_of(a.gives))
    }
}
