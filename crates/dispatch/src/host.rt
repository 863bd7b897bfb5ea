// What the host calls. No function asks anything of its caller: each tests the platform and the
// tables (H1), then does what is left.
ghost use Rattle.std.specs.Prelude.{◌≡◌, List, ℕ, ◌*◌, min, length, take};
ghost use Rattle.rules.specs.Platform.{platform_accepted};
ghost use Rattle.rules.specs.Tables.{well_formed};
ghost use Rattle.rules.specs.Machine.{call, completion, waking, event, reply, fresh_answer};
ghost use Rattle.rules.specs.declared.answers.Refusal.TheVariants.{NotWellFormed};
ghost use Rattle.tables.specs.Keeping.{seen, Shaped, FreshOr};
ghost use Rattle.dispatch.specs.Checks.{ensured};
ghost use Rattle.rules.specs.Answers.{count_in};
ghost use Rattle.dispatch.specs.Meets.{Meets};

use crate::checked;
use crate::checks::ensure;
use rules::answers::{Answer, Refusal, Registers, Success};
use rules::numbers::ACTION_WORDS;
use rules::platform::Platform;
use tables::Rows;

// H1: "platform or tables not well formed". It also tells the shape of the rows.
#[tactic(auto, unfolding(rules::specs::Tables::well_formed))]
fn vouch(p: &Platform, t: &Rows) -> Result<(), Refusal>
    ensures answer { result ≡ ensured (well_formed p.now (seen t.now)) NotWellFormed }
    ensures shape { Shaped t.now }
{
    let well = tables::well_formed(p, t);
    ensure(p.accepted() && well, Refusal::NotWellFormed)
}

// "Fresh": makes the lent rows the tables at power-up, or H1 with the rows as they were.
pub fn fresh(p: &Platform, t: &mut Rows) -> Answer
    ensures answer { result ≡ fresh_answer p.now }
    ensures rows { FreshOr (platform_accepted p.now) p.now t.old t.new }
{
    tables::make_fresh(p, t)?;
    Ok(Success::value(0))
}

// A call of hart h with registers r.
pub fn call(p: &Platform, t: &mut Rows, actions: &mut [u64], h: u64, r: Registers) -> Answer
    ensures { Meets t.old t.new actions.old actions.new h
        (reply p.now (seen t.old) (call (length actions.old) h r)) result }
{
    vouch(p, t)?;
    checked::call(p, t, actions, h, r)
}

// The completion of hart h's pending state.
pub fn completion(p: &Platform, t: &mut Rows, actions: &[u64], h: u64) -> Answer
    ensures { (m : List ℕ) → Meets t.old t.new m m h
        (reply p.now (seen t.old) (completion (length actions.now) h)) result }
{
    vouch(p, t)?;
    checked::completion(p, t, actions, h)
}

// A wake of hart h.
pub fn wake(p: &Platform, t: &mut Rows, actions: &mut [u64], h: u64) -> Answer
    ensures { Meets t.old t.new actions.old actions.new h
        (reply p.now (seen t.old) (waking (length actions.old) h)) result }
{
    vouch(p, t)?;
    checked::wake(p, t, actions, h)
}

// A firmware event that the host reports of hart h, of any code.
pub fn event(p: &Platform, t: &mut Rows, h: u64, code: u64) -> Answer
    ensures { (m : List ℕ) → Meets t.old t.new m m h
        (reply p.now (seen t.old) (event h code)) result }
{
    vouch(p, t)?;
    checked::event(p, t, h, code)
}

// How many words that many actions are, and no more than there are.
fn front_length(count: u64, room: usize) -> usize
    ensures { result ≡ min (5 * count) room }
{
    count.saturating_mul(ACTION_WORDS as u64).min(room as u64) as usize
}

// The front part of action memory that a number of actions fills: any number, as a pair holds it.
pub fn front_for<'a>(actions: &'a mut [u64], count: u64) -> &'a mut [u64]
    ensures words { result.now ≡ take (5 * count) actions.old }
    ensures place { result.ref_ptr ≡ actions.entry.ref_ptr }
{
    let n = front_length(count, actions.len());
    &mut actions[..n]
}

// "The host gets back the filled front part of its own action memory".
pub fn front<'a>(actions: &'a mut [u64], a: Answer) -> &'a mut [u64]
    ensures words { result.now ≡ take (5 * count_in a) actions.old }
    ensures place { result.ref_ptr ≡ actions.entry.ref_ptr }
{
    let count = match a {
        Ok(done) => done.actions,
        Err(_) => 0,
    };
    front_for(actions, count)
}
