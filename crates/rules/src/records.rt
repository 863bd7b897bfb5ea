// A hart's record and a counter, by value: "methods by value on a hart record: done, wake, suspend
// hand the next record back."
ghost use Rattle.std.specs.Prelude.{◌≡◌};
ghost use Rattle.rules.specs.Tables.{in_state};
ghost use Rattle.rules.specs.Harts.{done_of, wake_of, suspend_of};

use crate::numbers::{
    RESUME_PENDING, START_PENDING, STARTED, STOP_PENDING, STOPPED, SUSPEND_PENDING, SUSPENDED,
};

// "A hart record holds its state and a sleep note: retentive or not, address, opaque." The state is
// a number, not an enum: "state numbers as constants of their types", and tables in lent memory may
// hold one over 6 (`tables_well_formed`). The note is three fields, not an Option: rows are told
// apart by all three (`only_one`).
#[derive(Clone, Copy, Debug, PartialEq, Eq)]
pub struct Hart {
    pub state: u64,
    pub retentive: bool,
    pub address: u64,
    pub opaque: u64,
}

// A counter: the event's code that it is mapped to, if any, whether it runs, and its value. The
// code is any number, since lent rows may hold one over 21, and `running` stands by itself: H1
// speaks of both (`counter_well_formed`).
#[derive(Clone, Copy, Debug, PartialEq, Eq)]
pub struct Counter {
    pub event: Option<u64>,
    pub running: bool,
    pub value: u64,
}

impl Hart {
    // The record in another state, its sleep note kept.
    pub fn in_state(self, state: u64) -> Hart
        ensures { result ≡ in_state self state }
    {
        Hart { state, ..self }
    }

    // "Done: 2 to 0, 3 to 1, 5 to 4, 6 to 0."
    #[tactic(auto, using(crate::proofs::Logic::choice), unfolding(crate::specs::Harts::done_of))]
    pub fn done(self) -> Option<Hart>
        ensures { result ≡ done_of self }
    {
        match self.state {
            START_PENDING | RESUME_PENDING => Some(self.in_state(STARTED)),
            STOP_PENDING => Some(self.in_state(STOPPED)),
            SUSPEND_PENDING => Some(self.in_state(SUSPENDED)),
            _ => None,
        }
    }

    // "Wake: 4 to 6 only."
    #[tactic(auto, using(crate::proofs::Logic::choice), unfolding(crate::specs::Harts::wake_of))]
    pub fn wake(self) -> Option<Hart>
        ensures { result ≡ wake_of self }
    {
        match self.state {
            SUSPENDED => Some(self.in_state(RESUME_PENDING)),
            _ => None,
        }
    }

    // "An accepted suspend writes the sleep note (retentive, 0, 0 for type 0)"
    #[tactic(auto, using(crate::proofs::Logic::choice), unfolding(crate::specs::Harts::suspend_of))]
    pub fn suspend(self, retentive: bool, address: u64, opaque: u64) -> Hart
        ensures { result ≡ suspend_of retentive address opaque }
    {
        let (address, opaque) = if retentive { (0, 0) } else { (address, opaque) };
        Hart {
            state: SUSPEND_PENDING,
            retentive,
            address,
            opaque,
        }
    }
}
