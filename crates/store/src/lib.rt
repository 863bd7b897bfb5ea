// The table keeping: the hart records and counters of all harts in one lent array of words, a row a
// hart. What the words mean is the view `seen` of specs/. Assumes nothing.
#![tactic(auto)]

pub mod rows; // the rows and the places in a row
pub mod records; // a hart's record in its row
pub mod settling; // a completion behind a reference
pub mod counters; // the eight counters of a row
pub mod sets; // sets of counters of a row: the tests, the match, start and stop
pub mod wholes; // the test of whole tables
pub mod beginning; // fresh tables
pub mod keeping; // what the crate above is given
