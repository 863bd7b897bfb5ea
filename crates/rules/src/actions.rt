// What another hart has to do, and the events that it counts as.
ghost use Rattle.std.specs.Prelude.{◌≡◌, ◌+◌, ◌<◌};
ghost use Rattle.rules.specs.Names.{interrupt_kind, fence_kind};
ghost use Rattle.rules.specs.Replies.{enter};
ghost use Rattle.rules.specs.Masks.{action_for};
ghost use Rattle.rules.specs.Fences.{function_of, sent_code, FenceGiven};

use crate::answers::Error;
use crate::ids::SentCode;
use crate::numbers::{ENTER, FENCE, INTERRUPT};

// "An action is five words: target, kind, start, size, id." The kind is a number, as it lies in the
// host's memory.
#[derive(Clone, Copy, Debug, PartialEq, Eq)]
pub struct Action {
    pub target: u64,
    pub kind: u64,
    pub start: u64,
    pub size: u64,
    pub id: u64,
}

impl Action {
    // "1 enter at an address (start, opaque, 0)"
    pub fn enter(target: u64, address: u64, opaque: u64) -> Self
        ensures { result ≡ enter target address opaque }
    {
        Action {
            target,
            kind: ENTER,
            start: address,
            size: opaque,
            id: 0,
        }
    }

    // "2 interrupt (three zeros)"
    pub fn interrupt(target: u64) -> Self
        ensures { result ≡ action_for interrupt_kind 0 0 0 target }
    {
        Action {
            target,
            kind: INTERRUPT,
            start: 0,
            size: 0,
            id: 0,
        }
    }

    // "3 to 9 fences FID 0 to 6 (absent words 0; otherwise the arguments unaltered)"
    pub fn fence(fence: Fence, target: u64, start: u64, size: u64, id: u64) -> Self
        ensures { result ≡ action_for (fence_kind + function_of fence) start size id target }
    {
        Action {
            target,
            kind: FENCE + fence.function(),
            start,
            size,
            id,
        }
    }
}

// "Fences FID 0 to 6", in the order of their functions.
#[derive(Clone, Copy, Debug, PartialEq, Eq)]
pub enum Fence {
    FenceI,
    SfenceVma,
    SfenceVmaAsid,
    HfenceGvmaVmid,
    HfenceGvma,
    HfenceVvmaAsid,
    HfenceVvma,
}

impl Fence {
    // The function that asks for it.
    pub fn function(self) -> u64
        ensures is { result ≡ function_of self }
        ensures small { result < 7 }
    {
        self as u64
    }

    // The code of its sent event.
    #[tactic(auto, using(crate::proofs::SentLaws::sent_small))]
    pub fn sent(self) -> SentCode
        ensures { result.number ≡ sent_code (function_of self) }
    {
        SentCode {
            number: sent_code(self.function()),
        }
    }
}

// "Any other EID or FID .. answers -2."
impl TryFrom<u64> for Fence {
    type Error = Error;

    ghost try_from_gives = { λ fid r. FenceGiven fid r };

    fn try_from(fid: u64) -> Result<Fence, Error> {
        match fid {
            0 => Ok(Fence::FenceI),
            1 => Ok(Fence::SfenceVma),
            2 => Ok(Fence::SfenceVmaAsid),
            3 => Ok(Fence::HfenceGvmaVmid),
            4 => Ok(Fence::HfenceGvma),
            5 => Ok(Fence::HfenceVvmaAsid),
            6 => Ok(Fence::HfenceVvma),
            _ => Err(Error::NotSupported),
        }
    }
}

// "fences FID 0 to 6: 8, 10, 12, 16, 14, 20, 18"
const SENT: [u64; 7] = [8, 10, 12, 16, 14, 20, 18];

// The code of a sent fence by its function; 0 where there is no such function. It takes any number
// and not a `Fence`, since it is promised for any.
#[tactic(auto, unfolding(crate::specs::Fences::sent_code))]
pub fn sent_code(fid: u64) -> u64
    ensures { result ≡ sent_code fid }
{
    SENT.get(fid as usize).copied().unwrap_or(0)
}
