// What stands at a place of the reports, and where its bytes stand in the store.
#![tactic(auto)]

ghost use Rattle.std.specs.Prelude.{◌≡◌};
ghost use Rattle.radio_sights.specs.View.{data_in, span_of, answer_in};

pub use bytes_bounds::Span;
use state::Address;
use state_refusals::Refusal;
use time::Micros;

const NOWHERE: Span = Span { at: 0, len: 0 };

// Data and scan response are bytes of the store.
#[derive(Clone, Copy)]
pub struct AdvReport {
    pub address: Address,
    pub at: Micros,
    pub channel: u8,
    pub pdu: u8,
    pub data: Span,
    pub response: Option<Span>,
}

// Where its advertising data stands.
pub fn data_in(x: Result<Option<AdvReport>, Refusal>) -> Span
    ensures { result ≡ data_in x }
{
    match x {
        Ok(Some(r)) => r.data,
        _ => NOWHERE,
    }
}

// Where a scan response stands.
pub fn span_of(x: Option<Span>) -> Span
    ensures { result ≡ span_of x }
{
    x.unwrap_or(NOWHERE)
}

// Where its scan response stands.
pub fn answer_in(x: Result<Option<AdvReport>, Refusal>) -> Span
    ensures { result ≡ answer_in x }
{
    match x {
        Ok(Some(r)) => span_of(r.response),
        _ => NOWHERE,
    }
}
