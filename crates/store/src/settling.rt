// A completion alters the one hart's record behind a reference.
ghost use Rattle.std.specs.Prelude.{◌≡◌, ◌≤◌};
ghost use Rattle.rules.specs.Names.{RESUME_PENDING};
ghost use Rattle.store.specs.Rows.{hart_in, counters_in, Held};
ghost use Rattle.store.specs.Settling.{completed_of};

use crate::records::{pack, unpack};
use crate::rows::Row;
use rules::records::Hart;

// "the one hart's record is handed on by reference and altered there": completes its pending state;
// leaves a record with none.
#[tactic(auto, unfolding(crate::specs::Settling::completed_of))]
pub fn settle(hart: &mut Hart)
    ensures { hart.new ≡ completed_of hart.old }
{
    if let Some(next) = hart.done() {
        *hart = next;
    }
}

// Completes the pending state of a row's hart.
pub fn settle_row(r: &mut Row)
    requires { (hart_in r.old).state ≤ RESUME_PENDING }
    ensures { Held r.new
        (completed_of (hart_in r.old)) (counters_in r.old) }
{
    let mut hart = unpack(r);
    settle(&mut hart);
    pack(r, hart);
}
