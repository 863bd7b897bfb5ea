// The rules of document 01: its plain types and numbers here, its sentences as definitions in
// specs/, what follows from them in proofs/. Assumes nothing.
#![tactic(auto)]

pub mod numbers; // every number of document 01 under its name
pub mod answers; // the registers of a call, what is answered, the register's value of an error
pub mod ids; // numbers that their type keeps in range
pub mod platform; // the platform record
pub mod records; // a hart's record and a counter
pub mod actions; // what another hart has to do, and the events that it counts as
