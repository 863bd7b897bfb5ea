// The registers of a call, and what is answered.
ghost use Rattle.std.specs.Prelude.{◌≡◌, true, false};
ghost use Rattle.rules.specs.Answers.{error_number, refusal_number, done, paired};
ghost use Rattle.rules.specs.Replies.{register};
ghost use Rattle.rules.specs.declared.answers.Denial.TheVariants.{Refused, Failed};

use crate::numbers::{
    ALREADY_AVAILABLE, ALREADY_STARTED, ALREADY_STOPPED, BLOCK_CHECK, INVALID_ADDRESS,
    INVALID_PARAM, NO_SHARED_MEMORY, NOT_ENABLED, NOT_REPORTABLE, NOT_STARTED, NOT_SUPPORTED,
    NOT_WELL_FORMED, SHORT_MEMORY, STATE_FORBIDS, SUCCESS, UNKNOWN_KIND,
};

// a6 holds the function, a7 the extension.
#[derive(Clone, Copy, Debug, PartialEq, Eq)]
pub struct Registers {
    pub a0: u64,
    pub a1: u64,
    pub a2: u64,
    pub a3: u64,
    pub a4: u64,
    pub a5: u64,
    pub a6: u64,
    pub a7: u64,
}

// The errors of a call, each under "Given when".
#[derive(Clone, Copy, Debug, PartialEq, Eq)]
pub enum Error {
    // "unknown EID or FID; event or counter match not to be had; HFENCE to a hart without the
    // hypervisor extension"
    NotSupported,
    // "invalid hart, counter, flag, suspend type, ASID or VMID; event data not zero"
    InvalidParam,
    // "address or range not valid"
    InvalidAddress,
    // "start of a hart not STOPPED"
    AlreadyAvailable,
    // "start set holds a running counter"
    AlreadyStarted,
    // "stop set holds a counter not running"
    AlreadyStopped,
    // "snapshot flag with no shared memory"
    NoSharedMemory,
}

// The host refusals, each under "Given when".
#[derive(Clone, Copy, Debug, PartialEq, Eq)]
pub enum Refusal {
    // "platform or tables not well formed"
    NotWellFormed,
    // "the hart number is not enabled or is over 127"
    NotEnabled,
    // "a call from a hart not STARTED"
    NotStarted,
    // "action memory under 640 words (calls, completions, wakes)"
    ShortMemory,
    // "completion or wake that the hart's state does not allow"
    StateForbids,
    // "reported firmware event code over 5"
    NotReportable,
    // "unknown record kind (program only)"
    UnknownKind,
    // "block check wrong (program only)"
    BlockCheck,
}

// What was done: the value for a1, whether the caller is parked, and the number of actions.
#[derive(Clone, Copy, Debug, PartialEq, Eq)]
pub struct Success {
    pub value: u64,
    pub parked: bool,
    pub actions: u64,
}

// "Host refusals come instead of a pair"; "a1 is 0 on every error", and no action is given.
#[derive(Clone, Copy, Debug, PartialEq, Eq)]
pub enum Denial {
    Refused(Refusal),
    Failed(Error),
}

// What the host gets: the pair of what was done, of an error, or a refusal Hk in its place.
pub type Answer = Result<Success, Denial>;

// The pair for a0 and a1, its error as a signed number, with the parked mark and the number of
// actions: what the host hands on.
#[derive(Clone, Copy, Debug, PartialEq, Eq)]
pub struct Pair {
    pub error: i64,
    pub value: u64,
    pub parked: bool,
    pub actions: u64,
}

impl Error {
    // "a0 carries the error as a negative number": the constant of its type, as document 01 asks
    // for it, and no discriminant.
    pub fn number(self) -> i64
        ensures { result ≡ error_number self }
    {
        match self {
            Error::NotSupported => NOT_SUPPORTED,
            Error::InvalidParam => INVALID_PARAM,
            Error::InvalidAddress => INVALID_ADDRESS,
            Error::AlreadyAvailable => ALREADY_AVAILABLE,
            Error::AlreadyStarted => ALREADY_STARTED,
            Error::AlreadyStopped => ALREADY_STOPPED,
            Error::NoSharedMemory => NO_SHARED_MEMORY,
        }
    }
}

impl Refusal {
    // The k of Hk, a constant as well.
    pub fn number(self) -> u64
        ensures { result ≡ refusal_number self }
    {
        match self {
            Refusal::NotWellFormed => NOT_WELL_FORMED,
            Refusal::NotEnabled => NOT_ENABLED,
            Refusal::NotStarted => NOT_STARTED,
            Refusal::ShortMemory => SHORT_MEMORY,
            Refusal::StateForbids => STATE_FORBIDS,
            Refusal::NotReportable => NOT_REPORTABLE,
            Refusal::UnknownKind => UNKNOWN_KIND,
            Refusal::BlockCheck => BLOCK_CHECK,
        }
    }
}

impl Success {
    // Neither parked nor with an action.
    pub fn value(value: u64) -> Self
        ensures { result ≡ done value false 0 }
    {
        Success {
            value,
            parked: false,
            actions: 0,
        }
    }

    // "on success where no value is named" a1 is 0.
    pub fn actions(actions: u64) -> Self
        ensures { result ≡ done 0 false actions }
    {
        Success {
            actions,
            ..Success::value(0)
        }
    }

    // "The host's answer is 0, 0, marked parked; only stop and suspend mark it."
    pub fn parked() -> Self
        ensures { result ≡ done 0 true 0 }
    {
        Success {
            parked: true,
            ..Success::value(0)
        }
    }
}

impl From<Refusal> for Denial {
    ghost from_gives = { λ k d. d ≡ Refused k };

    fn from(k: Refusal) -> Self {
        Denial::Refused(k)
    }
}

impl From<Error> for Denial {
    ghost from_gives = { λ e d. d ≡ Failed e };

    fn from(e: Error) -> Self {
        Denial::Failed(e)
    }
}

// The pair of an answer, or the refusal that comes instead of it.
impl TryFrom<Answer> for Pair {
    type Error = Refusal;

    ghost try_from_gives = { λ a r. r ≡ paired a };

    // "a1 is 0 on every error": no action is given, and nobody is parked.
    fn try_from(a: Answer) -> Result<Pair, Refusal> {
        let (error, done) = match a {
            Ok(done) => (SUCCESS, done),
            Err(Denial::Failed(error)) => (error.number(), Success::value(0)),
            Err(Denial::Refused(refusal)) => return Err(refusal),
        };
        Ok(Pair {
            error,
            value: done.value,
            parked: done.parked,
            actions: done.actions,
        })
    }
}

// The value that stands in a register for an error: "-3 stands in the register as
// 18446744073709551613". Of any i64 and not of an `Error` alone: success has one too.
#[tactic(auto, unfolding(crate::specs::Replies::register))]
pub fn register(error: i64) -> u64
    ensures { result ≡ register error }
{
    error.cast_unsigned()
}
