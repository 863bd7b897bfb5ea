// A hart's record in its row.
ghost use Rattle.std.specs.Prelude.{◌≡◌, ◌≤◌};
ghost use Rattle.rules.specs.Names.{RESUME_PENDING};
ghost use Rattle.store.specs.Rows.{Held, state_in, hart_in, counters_in};

use crate::rows::{ADDRESS, OPAQUE, Row, STATE};
use rules::records::Hart;

// The state in a row's first word. A cleared word gives the number of no state, not None: a record
// has a state (`hart_in`), and rows that are seen alike are the same rows (`only_one`).
fn state_in(w: u64) -> u64
    ensures { result ≡ state_in w }
{
    if w < 2 {
        return u64::MAX;
    }
    w / 2 - 1
}

// A row's hart record.
#[tactic(auto, unfolding(crate::specs::Rows::hart_in))]
pub fn unpack(r: &Row) -> Hart
    ensures { result ≡ hart_in r.now }
{
    Hart {
        state: state_in(r[STATE]),
        retentive: r[STATE] % 2 == 0,
        address: r[ADDRESS],
        opaque: r[OPAQUE],
    }
}

// Puts a hart record into a row.
pub fn pack(r: &mut Row, x: Hart)
    requires { x.state ≤ RESUME_PENDING }
    ensures { Held r.new x (counters_in r.old) }
{
    r[STATE] = 2 * (x.state + 1) + u64::from(!x.retentive);
    r[ADDRESS] = x.address;
    r[OPAQUE] = x.opaque;
}
