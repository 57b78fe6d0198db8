// Edges that are shown by running them, as 01 asks: a Write at the MTU, the scan keys at 128, the batch at 64, values that a wait
// joins, a frame of 251 bytes, the views of a report. Prints what the calls gave.
#![tactic(auto)]

mod held;
mod joined;
mod keys;
mod known;
mod sizes;
mod views;
mod writes;

fn main() {
    writes::all();
    joined::all();
    held::all();
    keys::all();
    sizes::all();
    views::all();
}
