// Interrupts and remote fences.
ghost use Rattle.std.specs.Prelude.{◌≡◌, ◌+◌, ◌<◌, ◌≤◌, ◌^◌, ltb, length, true};
ghost use Rattle.rules.specs.Names.{action_memory, fence_kind};
ghost use Rattle.rules.specs.Masks.{selected, selection_fits, reached, send_to};
ghost use Rattle.rules.specs.Fences.{id_valid, hypervisors_fit, range_valid, interrupt_reply};
ghost use Rattle.rules.specs.Fences.{fence_reply, function_of};
ghost use Rattle.rules.specs.Replies.{view, plain};
ghost use Rattle.rules.specs.Requests.{fence_request, interrupt_request};
ghost use Rattle.rules.specs.Machine.{plain_reply};
ghost use Rattle.tables.specs.Keeping.{seen, Shaped};
ghost use Rattle.dispatch.specs.Meets.{Meets};

use crate::checks::ensure;
use crate::masks::{Selection, lay, tell};
use rules::actions::{Action, Fence};
use rules::answers::{Answer, Error, Registers, Success};
use rules::ids::{HartId, SentCode};
use rules::numbers::{ALL_ONES, INTERRUPT_SENT};
use rules::platform::Platform;
use tables::Rows;

// Whether a number is below 2^width.
#[tactic(auto, using(crate::proofs::Tests::of_widths))]
fn is_below(id: u64, width: u64) -> bool
    ensures { result ≡ ltb id (2 ^ width) }
{
    width >= 64 || id >> width == 0
}

// "ASID or VMID below 2^width (-3)"
#[tactic(auto, using(rules::proofs::Logic::choice), unfolding(rules::specs::Fences::id_valid))]
fn id_valid(p: &Platform, fence: Fence, id: u64) -> bool
    ensures { result ≡ id_valid p.now (function_of fence) id }
{
    match fence {
        Fence::SfenceVmaAsid | Fence::HfenceVvmaAsid => is_below(id, p.asid),
        Fence::HfenceGvmaVmid => is_below(id, p.vmid),
        _ => true,
    }
}

// "hypervisor extension on every selected hart for FID 3 to 6 (-2)"
#[tactic(auto, using(crate::proofs::Tests::of_harts))]
fn hypervisors_fit(p: &Platform, fence: Fence, whom: Selection) -> bool
    requires { selection_fits p.now whom.mask whom.base ≡ true }
    ensures { result ≡ hypervisors_fit p.now (function_of fence)
        (selected p.now whom.mask whom.base) }
{
    match fence {
        Fence::FenceI | Fence::SfenceVma | Fence::SfenceVmaAsid => true,
        _ => whom.all_hypervisors(p),
    }
}

// "The range is the whole space if start and size are both 0, or size is 2^64 - 1 with any start.
// Otherwise start + size may be at most 2^64."
#[tactic(auto, unfolding(rules::specs::Fences::range_valid))]
fn range_valid(start: u64, size: u64) -> bool
    ensures { result ≡ range_valid 64 start size }
{
    size == 0 || size == ALL_ONES || start <= ALL_ONES - (size - 1)
}

// What an interrupt and a fence do once their checks have passed: an action for each reached hart,
// and the events of each but the caller. Never a call of its own: with its frame the deepest stack
// would be 648 bytes, where 512 are the limit (docs/MEASURES.md).
#[inline(always)]
fn deliver(
    p: &Platform,
    t: &mut Rows,
    actions: &mut [u64],
    h: HartId,
    whom: Selection,
    like: Action,
    code: SentCode,
) -> Answer
    requires shaped { Shaped t.old }
    requires room { action_memory ≤ length actions.old }
    requires fit { selection_fits p.now whom.mask whom.base ≡ true }
    ensures { Meets t.old t.new actions.old actions.new h.number
        (plain (view (seen t.old) h.number)
        (send_to like.kind like.start like.size like.id code.number
        (reached p.now (view (seen t.old) h.number).harts whom.mask whom.base))) result }
{
    let n = lay(p, t, actions, whom, like);
    tell(p, t, whom, h, code);
    Ok(Success::actions(n))
}

// An interrupt: "2 interrupt (three zeros)", sent code 6.
pub fn interrupt(
    p: &Platform,
    t: &mut Rows,
    actions: &mut [u64],
    h: HartId,
    whom: Selection,
) -> Answer
    requires shaped { Shaped t.old }
    requires room { action_memory ≤ length actions.old }
    ensures { Meets t.old t.new actions.old actions.new h.number
        (plain (view (seen t.old) h.number)
        (interrupt_reply p.now (view (seen t.old) h.number) whom.mask whom.base)) result }
{
    ensure(whom.fits(p), Error::InvalidParam)?;
    let code = SentCode {
        number: INTERRUPT_SENT,
    };
    deliver(p, t, actions, h, whom, Action::interrupt(0), code)
}

// A remote fence: "Order: harts (-3), ASID or VMID below 2^width (-3), hypervisor extension on
// every selected hart for FID 3 to 6 (-2), range (-5)."
fn send(
    p: &Platform,
    t: &mut Rows,
    actions: &mut [u64],
    h: HartId,
    whom: Selection,
    fence: Fence,
    like: Action,
) -> Answer
    requires shaped { Shaped t.old }
    requires room { action_memory ≤ length actions.old }
    requires kind { like.kind ≡ fence_kind + function_of fence }
    ensures { Meets t.old t.new actions.old actions.new h.number
        (plain (view (seen t.old) h.number)
        (fence_reply p.now (view (seen t.old) h.number) (function_of fence) whom.mask whom.base
        like.start like.size like.id)) result }
{
    ensure(whom.fits(p), Error::InvalidParam)?;
    ensure(id_valid(p, fence, like.id), Error::InvalidParam)?;
    ensure(hypervisors_fit(p, fence, whom), Error::NotSupported)?;
    ensure(range_valid(like.start, like.size), Error::InvalidAddress)?;
    deliver(p, t, actions, h, whom, like, fence.sent())
}

// Remote fences by function: "FENCE.I has no range"; functions 2, 3 and 5 have an ASID or VMID.
pub fn rfence(p: &Platform, t: &mut Rows, actions: &mut [u64], h: HartId, r: Registers) -> Answer
    requires shaped { Shaped t.old }
    requires room { action_memory ≤ length actions.old }
    ensures { Meets t.old t.new actions.old actions.new h.number
        (plain (view (seen t.old) h.number)
        (plain_reply p.now (view (seen t.old) h.number) (fence_request r))) result }
{
    let whom = Selection {
        mask: r.a0,
        base: r.a1,
    };
    let fence = Fence::try_from(r.a6)?;
    let (start, size, id) = match fence {
        Fence::FenceI => (0, 0, 0),
        Fence::SfenceVmaAsid | Fence::HfenceGvmaVmid | Fence::HfenceVvmaAsid => (r.a2, r.a3, r.a4),
        Fence::SfenceVma | Fence::HfenceGvma | Fence::HfenceVvma => (r.a2, r.a3, 0),
    };
    send(
        p,
        t,
        actions,
        h,
        whom,
        fence,
        Action::fence(fence, 0, start, size, id),
    )
}

// Interrupts by function.
pub fn ipi(p: &Platform, t: &mut Rows, actions: &mut [u64], h: HartId, r: Registers) -> Answer
    requires shaped { Shaped t.old }
    requires room { action_memory ≤ length actions.old }
    ensures { Meets t.old t.new actions.old actions.new h.number
        (plain (view (seen t.old) h.number)
        (plain_reply p.now (view (seen t.old) h.number) (interrupt_request r))) result }
{
    ensure(r.a6 == 0, Error::NotSupported)?;
    let whom = Selection {
        mask: r.a0,
        base: r.a1,
    };
    interrupt(p, t, actions, h, whom)
}
