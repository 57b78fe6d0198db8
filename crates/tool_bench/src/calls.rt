// The calls that the loops time, on a state that is lent or by value.
use crate::{hear, row, told};
use script_rules::Batch;
use state::Address;
use state_core::Core;
use time::Micros;

// Each call gives one number of what it refused and gave.
pub trait Calls {
    // The core that the calls left.
    fn core(&self) -> Core;

    // The state stays for the next batch as it was, but for tables that are lent.
    fn push_steps(&mut self, at: Micros, steps: Batch, values: &[u8]) -> u64;

    fn on_timer(&mut self, at: Micros) -> u64;

    // A link comes, and goes again.
    fn on_link(&mut self, at: Micros) -> u64;

    fn on_fragment(&mut self, at: Micros, start: bool, fragment: &[u8]) -> u64;

    fn on_advertising(&mut self, at: Micros, from: Address, data: &[u8]) -> u64;
}

// All but the core is lent.
#[derive(Drop)]
pub struct Lent<'a> {
    pub core: Core,
    pub tables: &'a mut [u64; 1152],
    pub store: &'a mut [u8],
    pub out: &'a mut [u8],
}

impl Calls for Lent<'_> {
    fn core(&self) -> Core {
        self.core
    }

    fn push_steps(&mut self, at: Micros, steps: Batch, values: &[u8]) -> u64 {
        let a = script_batch::push_steps(
            self.core,
            self.tables,
            self.store,
            self.out,
            at,
            steps,
            values,
        );
        told::batch(a.refusal, a.state)
    }

    fn on_timer(&mut self, at: Micros) -> u64 {
        let a = script_events::on_timer(self.core, self.tables, self.store, self.out, at);
        self.core = a.state;
        told::call(a.refusal, 0)
    }

    fn on_link(&mut self, at: Micros) -> u64 {
        let met = script_events::on_connected(
            self.core,
            self.tables,
            self.store,
            self.out,
            row::HANDLE,
            at,
        );
        let parted = script_events::on_disconnected(met.state, self.tables, self.store, at);
        self.core = parted.state;
        told::link(met.refusal, met.state, parted.refusal, parted.state)
    }

    fn on_fragment(&mut self, at: Micros, start: bool, fragment: &[u8]) -> u64 {
        let a = link_call::on_fragment(
            self.core,
            self.tables,
            self.store,
            self.out,
            at,
            start,
            fragment,
        );
        self.core = a.state;
        told::call(a.refusal, a.gives.bytes)
    }

    fn on_advertising(&mut self, at: Micros, from: Address, data: &[u8]) -> u64 {
        let a = radio_calls::on_advertising(
            self.core,
            self.tables,
            self.store,
            at,
            37,
            hear::ADV_IND,
            from,
            data,
            false,
        );
        self.core = a.state;
        told::call(a.refusal, hear::number_of(a.gives))
    }
}
