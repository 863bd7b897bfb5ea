// The eight counters of a row, one at a time, and an event of one of their codes.
ghost use Rattle.std.specs.Prelude.{◌≡◌, ◌<◌, ◌≤◌, map, slice_set};
ghost use Rattle.rules.specs.Names.{counters};
ghost use Rattle.rules.specs.Tables.{counter_at, CounterFine};
ghost use Rattle.rules.specs.Replies.{counted};
ghost use Rattle.rules.specs.Counters.{configured};
ghost use Rattle.store.specs.Rows.{Alters, counter_of, counters_in, control_of};
ghost use Rattle.store.specs.Sets.{configure_at};

use crate::rows::{CONTROL, RUNNING_CODE, Row, STOPPED_CODE, VALUES};
use rules::ids::{CounterId, EventCode};
use rules::platform::bit_of;
use rules::records::Counter;

// The counter with control byte b and value v.
#[tactic(auto, using(crate::proofs::RowLaws::kind_laws))]
fn counter_of(b: u8, v: u64) -> Counter
    ensures { result ≡ counter_of b v }
{
    let (event, running) = match b {
        0 => (None, false),
        STOPPED_CODE..RUNNING_CODE => (Some(u64::from(b - STOPPED_CODE)), false),
        _ => (Some(u64::from(b - RUNNING_CODE)), true),
    };
    Counter {
        event,
        running,
        value: v,
    }
}

// Counter i of a row.
pub fn read_counter(r: &Row, i: usize) -> Counter
    requires { i < counters }
    ensures { result ≡ counter_at (counters_in r.now) i }
{
    counter_of(r[CONTROL].to_le_bytes()[i], r[VALUES + i])
}

// A counter's control byte.
fn control_of(c: Counter) -> u8
    requires { CounterFine c }
    ensures { result ≡ control_of c }
{
    match c.event {
        Some(code) if c.running => code as u8 + RUNNING_CODE,
        Some(code) => code as u8 + STOPPED_CODE,
        None => 0,
    }
}

// Puts counter i into a row.
pub fn write_counter(r: &mut Row, i: usize, c: Counter)
    requires { (i < counters) × CounterFine c }
    ensures { Alters r.old r.new (λ cs. slice_set cs i c) }
{
    let mut control = r[CONTROL].to_le_bytes();
    control[i] = control_of(c);
    r[CONTROL] = u64::from_le_bytes(control);
    r[VALUES + i] = c.value;
}

// "It is mapped. Bit 1 clears its value; bit 2 sets it running; otherwise value and running stay."
fn configured(c: Counter, flags: u64, code: EventCode) -> Counter
    ensures { result ≡ configured flags code.number c }
{
    Counter {
        event: Some(code.number),
        running: bit_of(flags, 2) || c.running,
        value: if bit_of(flags, 1) { 0 } else { c.value },
    }
}

// Configures counter i of a row.
pub fn configure_counter(r: &mut Row, i: CounterId, flags: u64, code: EventCode)
    ensures { Alters r.old r.new (configure_at flags code.number i.number) }
{
    let i = i.index();
    write_counter(r, i, configured(read_counter(r, i), flags, code));
}

// "An event adds one, going from 2^64 - 1 to 0, to every running counter of that hart mapped to its
// code."
pub fn count_row(r: &mut Row, code: EventCode)
    ensures { Alters r.old r.new (map (counted code.number)) }
{
    // By number: a counter's control byte and its value lie in two places of the one row.
    let want = code.number as u8 + RUNNING_CODE;
    if r[CONTROL] == 0 {
        return;
    }
    for (i, b) in r[CONTROL].to_le_bytes().iter().enumerate() {
        if *b == want {
            r[VALUES + i] = r[VALUES + i].wrapping_add(1);
        }
    }
}
