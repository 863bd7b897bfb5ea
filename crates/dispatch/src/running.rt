// What is left once H1, H4 and H2 are tested: the call of a running hart, done and wake.
ghost use Rattle.std.specs.Prelude.{◌≡◌, true, List, ℕ, ◌≤◌, length};
ghost use Rattle.rules.specs.Names.{action_memory};
ghost use Rattle.rules.specs.Tables.{tables_well_formed};
ghost use Rattle.rules.specs.Replies.{view};
ghost use Rattle.rules.specs.Harts.{done_reply, wake_reply};
ghost use Rattle.rules.specs.Requests.{request};
ghost use Rattle.rules.specs.Machine.{request_reply};
ghost use Rattle.tables.specs.Keeping.{seen, Shaped};
ghost use Rattle.dispatch.specs.Meets.{Meets, Ready};

use crate::base::base;
use crate::extensions::Extension;
use crate::fences::{ipi, rfence};
use crate::hsm::hsm;
use crate::laying::put_action;
use crate::pmu::pmu;
use rules::actions::Action;
use rules::answers::{Answer, Refusal, Registers, Success};
use rules::ids::HartId;
use rules::platform::Platform;
use tables::Rows;

// The call of the running hart h, by its extension. From here on each function takes the platform,
// the rows, the action memory and the hart side by side: its contract speaks of each of them by
// itself, and a struct of these references would have to promise besides that it still holds the
// caller's. So the shape of the rows and the length of the action memory stand in the contracts of
// those that write: both are told of memory that is the host's (`Meets` speaks of every word of it,
// also of those past 640).
pub fn answer(p: &Platform, t: &mut Rows, actions: &mut [u64], h: HartId, r: Registers) -> Answer
    requires { Ready p.now t.old actions.old h.number }
    ensures { Meets t.old t.new actions.old actions.new h.number
        (request_reply p.now (view (seen t.old) h.number) h.number (request r)) result }
{
    match Extension::try_from(r.a7)? {
        Extension::Base => base(p, r),
        Extension::Ipi => ipi(p, t, actions, h, r),
        Extension::Rfence => rfence(p, t, actions, h, r),
        Extension::Hsm => hsm(p, t, actions, h, r),
        Extension::Pmu => pmu(p, t, h, r),
    }
}

// Done: "the one hart's record is handed on by reference and altered there", once H5 is tested.
pub fn complete(p: &Platform, t: &mut Rows, h: HartId) -> Answer
    requires fine { tables_well_formed p.now (seen t.old) ≡ true }
    requires shaped { Shaped t.old }
    ensures { (m : List ℕ) → Meets t.old t.new m m h.number
        (done_reply (view (seen t.old) h.number) h.number) result }
{
    let x = tables::get_hart(t, h);
    let _ = x.done().ok_or(Refusal::StateForbids)?;
    tables::complete(t, h);
    Ok(Success::value(0))
}

// Wake: "a wake from non-retentive sleep gives one [action] for that hart with its stored address
// and opaque".
pub fn rouse(t: &mut Rows, actions: &mut [u64], h: HartId) -> Answer
    requires shaped { Shaped t.old }
    requires room { action_memory ≤ length actions.old }
    ensures { Meets t.old t.new actions.old actions.new h.number
        (wake_reply (view (seen t.old) h.number) h.number) result }
{
    let x = tables::get_hart(t, h);
    let next = x.wake().ok_or(Refusal::StateForbids)?;
    tables::put_hart(t, h, next);
    if x.retentive {
        return Ok(Success::actions(0));
    }
    put_action(actions, 0, Action::enter(h.number, x.address, x.opaque));
    Ok(Success::actions(1))
}
