// Numbers that their type keeps in range.
ghost use Rattle.std.specs.Prelude.{◌≡◌, ◌<◌, ◌+◌};

use crate::answers::{Error, Refusal};
use crate::numbers::{CODES, COUNTERS, FIRST_EVENT, HARTS, LAST_CODE, LAST_EVENT, LAST_REPORTED};

// A number below N.
#[derive(Clone, Copy, Debug, PartialEq, Eq)]
pub struct Below<const N: u64> {
    pub number: u64,
    pub ghost in_range: { number < N },
}

// "Hart numbers 0 to 127."
pub type HartId = Below<HARTS>;

// "Eight counters a hart."
pub type CounterId = Below<COUNTERS>;

// "a mapped code is 0 to 21"
pub type EventCode = Below<CODES>;

// Of a sent event, which leaves room for the received one.
pub type SentCode = Below<LAST_CODE>;

impl<const N: u64> Below<N> {
    // As an index.
    pub fn index(self) -> usize
        ensures { result ≡ self.entry.number }
    {
        self.number as usize
    }
}

// "numbers over 7 are -3"
impl TryFrom<u64> for CounterId {
    ghost use Rattle.rules.specs.Ids.{CounterGiven};

    type Error = Error;

    ghost try_from_gives = { λ i r. CounterGiven i r };

    #[tactic(auto, unfolding(crate::specs::Counters::is_counter))]
    fn try_from(i: u64) -> Result<CounterId, Error> {
        if i < COUNTERS {
            return Ok(CounterId { number: i });
        }
        Err(Error::InvalidParam)
    }
}

impl EventCode {
    ghost use Rattle.rules.specs.Ids.{EventGiven, ReportGiven};

    // "Events 0xF0000 to 0xF0015 only."
    #[tactic(auto, unfolding(crate::specs::Counters::is_event))]
    pub fn of_event(event: u64) -> Result<EventCode, Error>
        ensures { EventGiven event result }
    {
        match event {
            FIRST_EVENT..=LAST_EVENT => Ok(EventCode {
                number: event - FIRST_EVENT,
            }),
            _ => Err(Error::NotSupported),
        }
    }

    // "The host reports codes 0 to 5."
    pub fn reported(code: u64) -> Result<EventCode, Refusal>
        ensures { ReportGiven code result }
    {
        if code <= LAST_REPORTED {
            return Ok(EventCode { number: code });
        }
        Err(Refusal::NotReportable)
    }
}

impl SentCode {
    // The code of the event at the caller.
    pub fn sent(self) -> EventCode
        ensures { result.number ≡ self.number }
    {
        EventCode {
            number: self.number,
        }
    }

    // That of the event at its target: "Received is sent + 1."
    pub fn received(self) -> EventCode
        ensures { result.number ≡ self.number + 1 }
    {
        EventCode {
            number: self.number + 1,
        }
    }
}
