// Rounds of three calls, on a state that is lent or by value.
use state::Address;
use time::Micros;
use tool_bench::calls::{Calls, Lent};
use tool_bench::{hear, told};
use tool_bench_value::calls::ByValue;

pub trait Round: Calls {
    // One number of what the three calls refused and gave.
    fn round(&mut self, at: Micros, from: Address, data: &[u8]) -> u64;
}

impl Round for Lent<'_> {
    fn round(&mut self, at: Micros, from: Address, data: &[u8]) -> u64 {
        let a = radio_calls::on_advertising(
            self.core,
            self.tables,
            self.store,
            at,
            37,
            hear::ADV_IND,
            from,
            data,
            false,
        );
        let b = radio_calls::on_scan_response(a.state, self.tables, self.store, at, from, data);
        let c = script_events::on_timer(b.state, self.tables, self.store, self.out, at);
        self.core = c.state;
        let heard = told::call(a.refusal, hear::number_of(a.gives));
        heard
            .wrapping_add(told::call(b.refusal, 0))
            .wrapping_add(told::call(c.refusal, 0))
    }
}

impl Round for ByValue<'_> {
    fn round(&mut self, at: Micros, from: Address, data: &[u8]) -> u64 {
        let a = central::on_advertising(
            self.state,
            self.store,
            at,
            37,
            hear::ADV_IND,
            from,
            data,
            false,
        );
        let b = central::on_scan_response(a.state, self.store, at, from, data);
        let c = central::on_timer(b.state, self.store, self.out, at);
        self.state = c.state;
        let heard = told::call(a.refusal, hear::number_of(a.gives));
        heard
            .wrapping_add(told::call(b.refusal, 0))
            .wrapping_add(told::call(c.refusal, 0))
    }
}

// n rounds, of 64 advertisers in turn.
pub fn rounds<C: Round>(c: &mut C, n: u32, data: &[u8]) -> u64 {
    let mut sum = 0u64;
    let mut who = 0;
    for i in 0..n {
        let given = c.round(Micros(u64::from(i)), hear::address(who), data);
        sum = sum.wrapping_add(given);
        who = hear::after(who, 64);
    }
    told::with_core(sum, c.core())
}
