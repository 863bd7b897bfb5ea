// Performance counters: the caller's own eight firmware counters.
ghost use Rattle.std.specs.Prelude.{◌≡◌, true, List, ℕ};
ghost use Rattle.rules.specs.Tables.{own_at, tables_well_formed};
ghost use Rattle.rules.specs.Replies.{view, plain};
ghost use Rattle.rules.specs.Counters.{details_reply, read_reply};
ghost use Rattle.rules.specs.Counters.{read_high_reply, configure_reply, counter_start_reply};
ghost use Rattle.rules.specs.Counters.{counter_stop_reply};
ghost use Rattle.rules.specs.Requests.{counter_request};
ghost use Rattle.rules.specs.Machine.{plain_reply};
ghost use Rattle.rules.specs.declared.platform.Platform.{Platform};
ghost use Rattle.tables.specs.Keeping.{seen, Shaped, Fine};
ghost use Rattle.dispatch.specs.Meets.{Meets, Keeps};
ghost use Rattle.dispatch.specs.Sets.{SetGiven, ReadGiven};

use crate::checks::ensure;
use rules::answers::{Answer, Error, Registers, Success};
use rules::ids::{CounterId, EventCode, HartId};
use rules::numbers::{COUNTERS, FIRMWARE_COUNTER};
use rules::platform::{Platform, bit_of};
use rules::records::Counter;
use tables::Rows;

// "flags above bit 7 (-3)" of configure: the first number over its flags.
const CONFIGURE_FLAGS: u64 = 256;

// "flags above bit 1 (-3)" of start and stop: the first number over their flags.
const SET_FLAGS: u64 = 4;

// "bit 1 (-9)" of start and stop.
const SNAPSHOT_BIT: u64 = 1;

// A set of counters by its base and its mask, as a0 and a1 hold them. It is no `Selection`: "Here
// base 2^64 - 1 has no special meaning."
#[derive(Clone, Copy, Debug, PartialEq, Eq)]
struct CounterSet {
    base: u64,
    mask: u64,
}

impl CounterSet {
    // Its word, "bit i is counter base + i without wrapping; numbers over 7 are -3": bit base + i
    // of it for that counter.
    fn word(self) -> Result<u64, Error>
        ensures { (p : Platform) → SetGiven p self.base self.mask result }
    {
        let (base, mask) = (self.base, self.mask);
        if mask == 0 {
            return Ok(0);
        }
        if base < COUNTERS && mask >> (COUNTERS - base) == 0 {
            return Ok(mask << base);
        }
        Err(Error::InvalidParam)
    }
}

// "Details: 2^63 for counters 0 to 7, else -3."
fn details(i: u64) -> Answer
    ensures { (t : List (List ℕ)) (h : ℕ) → Shaped t
        → Keeps t h (plain (view (seen t) h) (details_reply (view (seen t) h).own i)) result }
{
    let _ = CounterId::try_from(i)?;
    Ok(Success::value(FIRMWARE_COUNTER))
}

// A counter that is read: "over 7 or unmapped is -3 (house), never a zero".
fn mapped_counter(t: &Rows, h: HartId, i: u64) -> Result<Counter, Error>
    ensures { ReadGiven (own_at (seen t.now) h.number) i result }
{
    let counter = tables::get_counter(t, h, CounterId::try_from(i)?);
    ensure(counter.event.is_some(), Error::InvalidParam)?;
    Ok(counter)
}

// "Read (FID 5)"
fn read(t: &Rows, h: HartId, i: u64) -> Answer
    requires { Shaped t.now }
    ensures { Keeps t.now h.number (plain (view (seen t.now) h.number)
        (read_reply (view (seen t.now) h.number).own i)) result }
{
    Ok(Success::value(mapped_counter(t, h, i)?.value))
}

// "High read (FID 6): the same refusals, else 0."
fn read_high(t: &Rows, h: HartId, i: u64) -> Answer
    requires { Shaped t.now }
    ensures { Keeps t.now h.number (plain (view (seen t.now) h.number)
        (read_high_reply (view (seen t.now) h.number).own i)) result }
{
    let _ = mapped_counter(t, h, i)?;
    Ok(Success::value(0))
}

// "Configure: flags above bit 7 (-3), counters (-3), event (-2), event data (-3), match (-2)." "The
// value returned is the counter."
fn configure(t: &mut Rows, h: HartId, set: CounterSet, flags: u64, event: u64, datum: u64) -> Answer
    requires { Shaped t.old }
    ensures { (p : Platform) (m : List ℕ) → Meets t.old t.new m m h.number
        (plain (view (seen t.old) h.number)
        (configure_reply p (view (seen t.old) h.number).own set.base set.mask flags event datum))
        result }
{
    ensure(flags < CONFIGURE_FLAGS, Error::InvalidParam)?;
    let set = set.word()?;
    let code = EventCode::of_event(event)?;
    ensure(datum == 0, Error::InvalidParam)?;
    let i = tables::match_counter(t, h, set, flags).ok_or(Error::NotSupported)?;
    tables::configure(t, h, i, flags, code);
    Ok(Success::value(i.number))
}

// "Start: flags above bit 1 (-3), counters (-3), an unmapped counter (-3, house), bit 1 (-9), any
// running (-7). All or none (house)."
fn start_counters(t: &mut Rows, h: HartId, set: CounterSet, flags: u64, initial: u64) -> Answer
    requires shaped { Shaped t.old }
    requires fine { Fine (own_at (seen t.old) h.number) }
    ensures { (p : Platform) (m : List ℕ) → Meets t.old t.new m m h.number
        (plain (view (seen t.old) h.number)
        (counter_start_reply p (view (seen t.old) h.number).own set.base set.mask flags initial))
        result }
{
    ensure(flags < SET_FLAGS, Error::InvalidParam)?;
    let set = set.word()?;
    ensure(tables::all_mapped(t, h, set), Error::InvalidParam)?;
    ensure(!bit_of(flags, SNAPSHOT_BIT), Error::NoSharedMemory)?;
    ensure(tables::none_running(t, h, set), Error::AlreadyStarted)?;
    tables::start_set(t, h, set, flags, initial);
    Ok(Success::value(0))
}

// "Stop: flags above bit 1 (-3), counters (-3), bit 1 (-9), any not running (-8). All or none."
fn stop_counters(t: &mut Rows, h: HartId, set: CounterSet, flags: u64) -> Answer
    requires shaped { Shaped t.old }
    requires fine { Fine (own_at (seen t.old) h.number) }
    ensures { (p : Platform) (m : List ℕ) → Meets t.old t.new m m h.number
        (plain (view (seen t.old) h.number)
        (counter_stop_reply p (view (seen t.old) h.number).own set.base set.mask flags)) result }
{
    ensure(flags < SET_FLAGS, Error::InvalidParam)?;
    let set = set.word()?;
    ensure(!bit_of(flags, SNAPSHOT_BIT), Error::NoSharedMemory)?;
    ensure(tables::all_running(t, h, set), Error::AlreadyStopped)?;
    tables::stop_set(t, h, set, flags);
    Ok(Success::value(0))
}

// What PMU function a6 answers: "Any other EID or FID, compared over all 64 bits of a7 and a6
// (house), answers -2", and functions 7 and 8 too. By number, as in `hsm`.
pub fn pmu(p: &Platform, t: &mut Rows, h: HartId, r: Registers) -> Answer
    requires shaped { Shaped t.old }
    requires fine { tables_well_formed p.now (seen t.old) ≡ true }
    ensures { (m : List ℕ) → Meets t.old t.new m m h.number
        (plain (view (seen t.old) h.number)
        (plain_reply p.now (view (seen t.old) h.number) (counter_request r))) result }
{
    let set = CounterSet {
        base: r.a0,
        mask: r.a1,
    };
    match r.a6 {
        0 => Ok(Success::value(COUNTERS)),
        1 => details(r.a0),
        2 => configure(t, h, set, r.a2, r.a3, r.a4),
        3 => start_counters(t, h, set, r.a2, r.a3),
        4 => stop_counters(t, h, set, r.a2),
        5 => read(t, h, r.a0),
        6 => read_high(t, h, r.a0),
        _ => Err(Error::NotSupported.into()),
    }
}
