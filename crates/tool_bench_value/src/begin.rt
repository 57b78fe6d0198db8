// The states that the loops begin with.
use central::State;
use tool_bench::begin;
use tool_bench::row::Row;

pub fn state(r: Row) -> State {
    let mut tables = [0u64; 1152];
    begin::lay_tables(&mut tables, r);
    State {
        core: begin::core(r),
        tables,
    }
}
