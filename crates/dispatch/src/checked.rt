// Calls, completions, wakes and reported events on tables that are well formed: H4, H2, then H3, H5
// or H6. Whoever can vouch for the tables calls these and pays for the test once.
ghost use Rattle.std.specs.Prelude.{List, ℕ, length};
ghost use Rattle.rules.specs.Machine.{call, completion, waking, event, checked_reply};
ghost use Rattle.tables.specs.Keeping.{seen};
ghost use Rattle.dispatch.specs.Meets.{Meets, WellFormed, Admitted};

use crate::checks::ensure;
use crate::running::{answer, complete, rouse};
use rules::answers::{Answer, Refusal, Registers, Success};
use rules::ids::{EventCode, HartId};
use rules::numbers::{ACTION_MEMORY, STARTED};
use rules::platform::Platform;
use tables::Rows;

// The hart that an operation is of, where its action memory is long enough and it is enabled: H4,
// then H2.
#[tactic(auto, using(crate::specs::Meets::short, crate::specs::Meets::off))]
fn admit(p: &Platform, room: usize, h: u64) -> Result<HartId, Refusal>
    ensures { Admitted p.now room h result }
{
    if room < ACTION_MEMORY {
        return Err(Refusal::ShortMemory);
    }
    p.hart(h).ok_or(Refusal::NotEnabled)
}

// A call of hart h.
pub fn call(p: &Platform, t: &mut Rows, actions: &mut [u64], h: u64, r: Registers) -> Answer
    requires { WellFormed p.now t.old }
    ensures { Meets t.old t.new actions.old actions.new h
        (checked_reply p.now (seen t.old) (call (length actions.old) h r)) result }
{
    let h = admit(p, actions.len(), h)?;
    let x = tables::get_hart(t, h);
    ensure(x.state == STARTED, Refusal::NotStarted)?;
    answer(p, t, actions, h, r)
}

// A completion of hart h.
pub fn completion(p: &Platform, t: &mut Rows, actions: &[u64], h: u64) -> Answer
    requires { WellFormed p.now t.old }
    ensures { (m : List ℕ) → Meets t.old t.new m m h
        (checked_reply p.now (seen t.old) (completion (length actions.now) h)) result }
{
    let h = admit(p, actions.len(), h)?;
    complete(p, t, h)
}

// A wake of hart h.
pub fn wake(p: &Platform, t: &mut Rows, actions: &mut [u64], h: u64) -> Answer
    requires { WellFormed p.now t.old }
    ensures { Meets t.old t.new actions.old actions.new h
        (checked_reply p.now (seen t.old) (waking (length actions.old) h)) result }
{
    let h = admit(p, actions.len(), h)?;
    rouse(t, actions, h)
}

// A reported event of hart h. Its code is any number that the host may give: H6 is tested here.
pub fn event(p: &Platform, t: &mut Rows, h: u64, code: u64) -> Answer
    requires { WellFormed p.now t.old }
    ensures { (m : List ℕ) → Meets t.old t.new m m h
        (checked_reply p.now (seen t.old) (event h code)) result }
{
    let h = p.hart(h).ok_or(Refusal::NotEnabled)?;
    let code = EventCode::reported(code)?;
    tables::count(t, h, code);
    Ok(Success::value(0))
}
