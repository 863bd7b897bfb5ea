// Sets of a row's counters as words of bits: the tests, the match, start and stop.
#![tactic(auto, using(crate::proofs::KindLaws::set_laws))]

ghost use Rattle.std.specs.Prelude.{◌≡◌, ◌<◌, ◌≤◌, ◌==◌, ◌||◌, bit_and, nat_le};
ghost use Rattle.std.specs.Option.{option_map};
ghost use Rattle.rules.specs.Names.{counters};
ghost use Rattle.rules.specs.Sets.{bit, all, first};
ghost use Rattle.rules.specs.Counters.{is_mapped, is_running, not_running, chosen, each, begun};
ghost use Rattle.rules.specs.Counters.{ended};
ghost use Rattle.store.specs.Rows.{byte, counters_in, Alters};
ghost use Rattle.store.specs.Sets.{mask_of, set_of, Kept, MayChange, Changed};

use crate::counters::{read_counter, write_counter};
use crate::rows::{CONTROL, COUNTERS, RUNNING_CODE, Row, STOPPED_CODE};
use rules::ids::CounterId;
use rules::platform::bit_of;
use rules::records::Counter;

// All eight counters.
const ALL: u64 = 255;

// The counters whose control byte is b or more.
fn at_least(w: u64, b: u8) -> u64
    ensures { result ≡ mask_of counters (λ i. nat_le b (byte w i)) }
{
    let mut m = 0;
    for (i, control) in w.to_le_bytes().iter().enumerate() {
        m += u64::from(*control >= b) << i;
    }
    m
}

// The mapped counters.
fn mapped_in(r: &Row) -> u64
    ensures { result ≡ mask_of counters (is_mapped (counters_in r.now)) }
{
    at_least(r[CONTROL], STOPPED_CODE)
}

// The running counters.
fn running_in(r: &Row) -> u64
    ensures { result ≡ mask_of counters (is_running (counters_in r.now)) }
{
    at_least(r[CONTROL], RUNNING_CODE)
}

// The counters that do not run.
fn idle_in(r: &Row) -> u64
    ensures { result ≡ mask_of counters (not_running (counters_in r.now)) }
{
    ALL - running_in(r)
}

// Whether each counter of the set s is one of m.
fn within(s: u64, m: u64) -> bool
    ensures { result ≡ (bit_and (bit_and s 255) m == bit_and s 255) }
{
    let low = s & ALL;
    low & m == low
}

// Three tests of a set, each against its own word: what they share is `within`.

// Whether each counter of the set is mapped.
pub fn row_all_mapped(r: &Row, s: u64) -> bool
    ensures { result ≡ all (is_mapped (counters_in r.now)) (set_of s) }
{
    within(s, mapped_in(r))
}

// Whether each counter of the set runs.
pub fn row_all_running(r: &Row, s: u64) -> bool
    ensures { result ≡ all (is_running (counters_in r.now)) (set_of s) }
{
    within(s, running_in(r))
}

// Whether no counter of the set runs.
pub fn row_none_running(r: &Row, s: u64) -> bool
    ensures { result ≡ all (not_running (counters_in r.now)) (set_of s) }
{
    within(s, idle_in(r))
}

// The lowest counter of a set, if any: none is past the eighth.
fn lowest(s: u64) -> Option<CounterId>
    requires { s ≤ 255 }
    ensures { option_map (λ c. c.number) result ≡ first (set_of s) }
{
    if s == 0 {
        return None;
    }
    Some(CounterId {
        number: u64::from(s.trailing_zeros()),
    })
}

// The counters that may be taken: with skip (bit 0) all, else those that do not run.
fn free_in(r: &Row, flags: u64) -> u64
    ensures { result
        ≡ mask_of counters (λ i. bit flags 0 || not_running (counters_in r.now) i) }
{
    if bit_of(flags, 0) { ALL } else { idle_in(r) }
}

// "Chosen is the lowest counter of the set that is not running; with skip (bit 0) the lowest of the
// set, running or not."
pub fn row_match(r: &Row, s: u64, flags: u64) -> Option<CounterId>
    ensures { option_map (λ c. c.number) result
        ≡ chosen flags (counters_in r.now) (set_of s) }
{
    lowest(s & free_in(r, flags))
}

// "Bit 0 loads a3."
fn begun(c: Counter, flags: u64, initial: u64) -> Counter
    ensures { result ≡ begun flags initial c }
{
    Counter {
        running: true,
        value: if bit_of(flags, 0) { initial } else { c.value },
        ..c
    }
}

// "Bit 0 also unmaps; the value stays."
fn ended(c: Counter, flags: u64) -> Counter
    ensures { result ≡ ended flags c }
{
    Counter {
        event: if bit_of(flags, 0) { None } else { c.event },
        running: false,
        ..c
    }
}

// Changes each counter of the set. By number, since a counter lies in two places of the row: its
// control byte in one word, its value in another.
fn change_row<F: Fn(Counter) -> Counter>(r: &mut Row, s: u64, change: F)
    requires callable { F.IsAlwaysCallable change }
    requires fine { MayChange (F.post change) s (counters_in r.old) }
    ensures { Changed (F.post change) s counters r.old r.new }
{
    for i in 0..COUNTERS {
        if bit_of(s, i as u64) {
            write_counter(r, i, change(read_counter(r, i)));
        }
    }
}

// Starts each counter of the set.
pub fn start_row(r: &mut Row, s: u64, flags: u64, initial: u64)
    requires { Kept (begun flags initial) s (counters_in r.old) }
    ensures { Alters r.old r.new
        (each (begun flags initial) (set_of s)) }
{
    change_row(r, s, |c| begun(c, flags, initial));
}

// Stops each counter of the set.
pub fn stop_row(r: &mut Row, s: u64, flags: u64)
    requires { Kept (ended flags) s (counters_in r.old) }
    ensures { Alters r.old r.new (each (ended flags) (set_of s)) }
{
    change_row(r, s, |c| ended(c, flags));
}
