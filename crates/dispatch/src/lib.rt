// Calls, completions, wakes and reported events, over the promises of `tables` alone.
#![tactic(auto)]

mod checks; // a check and what is answered where it fails
mod extensions; // the five extensions
mod laying; // actions put into lent memory
mod masks; // a selection, asked of each hart
mod hsm; // hart states
mod base; // Base
mod fences; // interrupts and remote fences
mod pmu; // performance counters
mod running; // a running hart's call, done and wake
pub mod checked; // on well-formed tables
pub mod host; // what the host calls
