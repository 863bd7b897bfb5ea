// What the crate above is given: each function on the rows of all harts, said through the view. One
// that writes asks that the rows are Shaped and leaves them so, for the other rows' sake: a row's
// type tells that its words are words only where the code reads or writes that row. A struct that
// lends the rows and has this as its invariant is no plainer: each of the six would promise instead
// that the struct still holds the caller's reference. Nor can a struct own them: the host does, as
// words. Each function here finds the row; the one of a row behind it knows of no other row. A set
// of counters is the word of its bits (`set_of`), flags are the word that the call has: neither has
// more to say than the word. What counters a set may hold is asked, since lent rows may hold any.
#![tactic(auto, using(crate::proofs::ViewLaws::seen_laws))]

ghost use Rattle.std.specs.Prelude.{◌≡◌, ◌≤◌};
ghost use Rattle.std.specs.Option.{option_map};
ghost use Rattle.rules.specs.Names.{RESUME_PENDING};
ghost use Rattle.rules.specs.Tables.{hart_at, state_of, own_at, counter_at};
ghost use Rattle.rules.specs.Sets.{all};
ghost use Rattle.rules.specs.Counters.{is_mapped, is_running, not_running, chosen};
ghost use Rattle.rules.specs.Counters.{each, begun, ended};
ghost use Rattle.store.specs.Sets.{set_of, Fine, Startable, configure_at};
ghost use Rattle.store.specs.Seen.{seen, Shaped, Holds, put_hart, alter_own, count_hart};
ghost use Rattle.store.specs.Settling.{complete_hart};

use crate::counters::{configure_counter, count_row, read_counter};
use crate::records::{pack, unpack};
use crate::rows::Rows;
use crate::sets::{
    row_all_mapped, row_all_running, row_match, row_none_running, start_row, stop_row,
};
use crate::settling::settle_row;
use rules::ids::{CounterId, EventCode, HartId};
use rules::records::{Counter, Hart};

// Hart h's record.
pub fn get_hart(t: &Rows, h: HartId) -> Hart
    ensures { result ≡ hart_at (seen t.now).harts h.number }
{
    unpack(&t[h.index()])
}

// Puts hart h's record. Its state is asked, since a `Hart` may hold any number for one.
pub fn put_hart(t: &mut Rows, h: HartId, x: Hart)
    requires { (x.state ≤ RESUME_PENDING) × Shaped t.old }
    ensures { Holds t.new (put_hart (seen t.old) h.number x) }
{
    pack(&mut t[h.index()], x);
}

// Completes the pending state of hart h; leaves a record with none. Its state is asked, as by
// `put_hart`.
pub fn complete(t: &mut Rows, h: HartId)
    requires { (state_of (seen t.old).harts h.number ≤ RESUME_PENDING) × Shaped t.old }
    ensures { Holds t.new (complete_hart (seen t.old) h.number) }
{
    settle_row(&mut t[h.index()]);
}

// Counter i of hart h.
pub fn get_counter(t: &Rows, h: HartId, i: CounterId) -> Counter
    ensures { result ≡ counter_at (own_at (seen t.now) h.number) i.number }
{
    read_counter(&t[h.index()], i.index())
}

// Counts an event of a code at hart h.
pub fn count(t: &mut Rows, h: HartId, code: EventCode)
    requires { Shaped t.old }
    ensures { Holds t.new (count_hart (seen t.old) h.number code.number) }
{
    count_row(&mut t[h.index()], code);
}

// Configures counter i of hart h.
pub fn configure(t: &mut Rows, h: HartId, i: CounterId, flags: u64, code: EventCode)
    requires { Shaped t.old }
    ensures { Holds t.new
        (alter_own (seen t.old) h.number (configure_at flags code.number i.number)) }
{
    configure_counter(&mut t[h.index()], i, flags, code);
}

// Whether each counter of the set s of hart h is mapped.
pub fn all_mapped(t: &Rows, h: HartId, s: u64) -> bool
    ensures { result ≡ all (is_mapped (own_at (seen t.now) h.number)) (set_of s) }
{
    row_all_mapped(&t[h.index()], s)
}

// Whether each counter of the set s of hart h runs.
pub fn all_running(t: &Rows, h: HartId, s: u64) -> bool
    ensures { result ≡ all (is_running (own_at (seen t.now) h.number)) (set_of s) }
{
    row_all_running(&t[h.index()], s)
}

// Whether no counter of the set s of hart h runs.
pub fn none_running(t: &Rows, h: HartId, s: u64) -> bool
    ensures { result ≡ all (not_running (own_at (seen t.now) h.number)) (set_of s) }
{
    row_none_running(&t[h.index()], s)
}

// The counter of the set s of hart h that a configuration takes, if any.
pub fn match_counter(t: &Rows, h: HartId, s: u64, flags: u64) -> Option<CounterId>
    ensures { option_map (λ c. c.number) result
        ≡ chosen flags (own_at (seen t.now) h.number) (set_of s) }
{
    row_match(&t[h.index()], s, flags)
}

// Starts each counter of the set s of hart h. They are mapped.
pub fn start_set(t: &mut Rows, h: HartId, s: u64, flags: u64, initial: u64)
    requires { Shaped t.old × Startable (own_at (seen t.old) h.number) s }
    ensures { Holds t.new
        (alter_own (seen t.old) h.number (each (begun flags initial) (set_of s))) }
{
    start_row(&mut t[h.index()], s, flags, initial);
}

// Stops each counter of the set s of hart h.
pub fn stop_set(t: &mut Rows, h: HartId, s: u64, flags: u64)
    requires { Shaped t.old × Fine (own_at (seen t.old) h.number) }
    ensures { Holds t.new
        (alter_own (seen t.old) h.number (each (ended flags) (set_of s))) }
{
    stop_row(&mut t[h.index()], s, flags);
}
