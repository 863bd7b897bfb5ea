// The table keeping, as the crates above see it: what it does is said through the view `seen` of
// specs/, and how the tables are held is told to no one. The functions are `store`'s, with their
// contracts, passed on. Assumes nothing.
#![tactic(auto)]

pub use store::beginning::make_fresh;
pub use store::keeping::{
    all_mapped, all_running, complete, configure, count, get_counter, get_hart, match_counter,
    none_running, put_hart, start_set, stop_set,
};
pub use store::rows::Rows;
pub use store::wholes::well_formed;
