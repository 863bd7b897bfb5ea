// Hart states: start, stop, status and suspend.
ghost use Rattle.std.specs.Prelude.{List, ℕ, ◌≤◌, length};
ghost use Rattle.rules.specs.Names.{action_memory};
ghost use Rattle.rules.specs.Replies.{view, plain};
ghost use Rattle.rules.specs.Harts.{start_reply, stop_reply, status_reply, suspend_reply};
ghost use Rattle.rules.specs.Requests.{hart_request};
ghost use Rattle.rules.specs.Machine.{request_reply};
ghost use Rattle.tables.specs.Keeping.{seen, Shaped};
ghost use Rattle.dispatch.specs.Meets.{Meets, Keeps};

use crate::checks::ensure;
use crate::laying::put_action;
use rules::actions::Action;
use rules::answers::{Answer, Error, Registers, Success};
use rules::ids::HartId;
use rules::numbers::{NON_RETENTIVE, RETENTIVE, START_PENDING, STOP_PENDING, STOPPED};
use rules::platform::Platform;
use tables::Rows;

// "Status (FID 2). -3 for a hart not enabled, else its state." Of status and of start, the caller h
// stands in the contract alone, and may be any number.
pub fn status(p: &Platform, t: &Rows, h: u64, target: u64) -> Answer
    requires { Shaped t.now }
    ensures { Keeps t.now h (plain (view (seen t.now) h)
        (status_reply p.now (view (seen t.now) h) target)) result }
{
    let target = p.hart(target).ok_or(Error::InvalidParam)?;
    let x = tables::get_hart(t, target);
    Ok(Success::value(x.state))
}

// "Start (FID 0: hart, address, opaque). Checks in order: hart enabled (-3), STOPPED (-6), address
// (-5). To START_PENDING."
pub fn start(
    p: &Platform,
    t: &mut Rows,
    actions: &mut [u64],
    h: u64,
    target: u64,
    address: u64,
    opaque: u64,
) -> Answer
    requires shaped { Shaped t.old }
    requires room { action_memory ≤ length actions.old }
    ensures { Meets t.old t.new actions.old actions.new h
        (start_reply p.now (view (seen t.old) h) target address opaque) result }
{
    let target = p.hart(target).ok_or(Error::InvalidParam)?;
    let x = tables::get_hart(t, target);
    ensure(x.state == STOPPED, Error::AlreadyAvailable)?;
    ensure(p.valid_address(address), Error::InvalidAddress)?;
    tables::put_hart(t, target, x.in_state(START_PENDING));
    put_action(actions, 0, Action::enter(target.number, address, opaque));
    Ok(Success::actions(1))
}

// "Stop (FID 1). Caller to STOP_PENDING; nothing is returned to it."
pub fn stop(t: &mut Rows, h: HartId) -> Answer
    requires { Shaped t.old }
    ensures { (m : List ℕ) → Meets t.old t.new m m h.number
        (stop_reply (view (seen t.old) h.number) h.number) result }
{
    let x = tables::get_hart(t, h);
    tables::put_hart(t, h, x.in_state(STOP_PENDING));
    Ok(Success::parked())
}

// "Type 0 is retentive and ignores the address; type 0x80000000 is not. Every other type is -3 ..
// Then, for the non-retentive type, address (-5). To SUSPEND_PENDING; 0, 0, parked." The type is
// the number as it came: what it stands for is asked here alone, and is the one bit `retentive`.
pub fn suspend(
    p: &Platform,
    t: &mut Rows,
    h: HartId,
    sleep: u64,
    address: u64,
    opaque: u64,
) -> Answer
    requires { Shaped t.old }
    ensures { (m : List ℕ) → Meets t.old t.new m m h.number
        (suspend_reply p.now (view (seen t.old) h.number) h.number sleep address opaque) result }
{
    let x = tables::get_hart(t, h);
    let retentive = sleep == RETENTIVE;
    ensure(retentive || sleep == NON_RETENTIVE, Error::InvalidParam)?;
    ensure(retentive || p.valid_address(address), Error::InvalidAddress)?;
    tables::put_hart(t, h, x.suspend(retentive, address, opaque));
    Ok(Success::parked())
}

// Hart states by function, matched as the number that a6 holds: an enum would be made here, to be
// matched at once; a `Fence` is handed on. Suspend: "Only the low 32 bits of a0 are read": a cast
// would ask that it fits.
pub fn hsm(p: &Platform, t: &mut Rows, actions: &mut [u64], h: HartId, r: Registers) -> Answer
    requires shaped { Shaped t.old }
    requires room { action_memory ≤ length actions.old }
    ensures { Meets t.old t.new actions.old actions.new h.number
        (request_reply p.now (view (seen t.old) h.number) h.number (hart_request r)) result }
{
    match r.a6 {
        0 => start(p, t, actions, h.number, r.a0, r.a1, r.a2),
        1 => stop(t, h),
        2 => status(p, t, h.number, r.a0),
        3 => suspend(p, t, h, r.a0 % 4294967296, r.a1, r.a2),
        _ => Err(Error::NotSupported.into()),
    }
}
