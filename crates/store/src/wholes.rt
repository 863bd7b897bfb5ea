// The test of whole tables, on their words. It has no early exit, so that it also tells the shape
// of every row: tests are joined by &, which asks both sides, over each word and row.
#![tactic(auto, using(crate::proofs::WholeLaws::whole_laws))]

ghost use Rattle.std.specs.Prelude.{◌≡◌, ◌+◌, ◌-◌, length, nat_eq, nat_le};
ghost use Rattle.std.specs.Prelude.{slice_index};
ghost use Rattle.rules.specs.Names.{counters};
ghost use Rattle.rules.specs.Sets.{every};
ghost use Rattle.rules.specs.Tables.{tables_well_formed};
ghost use Rattle.store.specs.Rows.{words, byte, last_control, Fit};
ghost use Rattle.store.specs.Tests.{row_well_formed, Half};
ghost use Rattle.store.specs.Seen.{seen, Shaped};

use crate::rows::{CONTROL, HALF, Row, Rows, STATE, STOPPED_WORD};
use rules::platform::{Platform, bit_of};

// The first words of the lowest and of the highest state.
const FIRST_STATE: u64 = 2;

const LAST_STATE: u64 = 15;

// Eight bytes: all but the top bit of each, the top bits, and what carries a byte over last_control
// to its top bit.
const LOW_BITS: u64 = 0x7f7f7f7f7f7f7f7f;

const TOP_BITS: u64 = 0x8080808080808080;

const OVER: u64 = 0x5353535353535353;

// Whether each control byte is unmapped, stopped or running, with a code up to 21.
fn controls(w: u64) -> bool
    ensures { result ≡ every counters (λ i. nat_le (byte w i) last_control) }
{
    let up = (w & LOW_BITS) + OVER;
    (w | up) & TOP_BITS == 0
}

// Whether each word but the first is 0.
fn cleared(r: &Row) -> bool
    ensures { result ≡ every (words - 1) (λ i. nat_eq (slice_index r.now (1 + i)) 0) }
{
    r[1..].iter().fold(0, |all, w| all | w) == 0
}

// Whether the row of a hart is well formed, enabled or not.
fn row_well_formed(r: &Row, enabled: bool) -> bool
    ensures test { result ≡ row_well_formed enabled r.now }
    ensures shape { Fit r.now }
{
    let w = r[STATE];
    if enabled {
        return (FIRST_STATE..=LAST_STATE).contains(&w) & controls(r[CONTROL]);
    }
    (w == STOPPED_WORD) & cleared(r)
}

// Whether the 64 rows of a half are well formed, with the bits that say which of their harts are
// enabled.
fn half_well_formed(enabled: u64, half: &[Row]) -> bool
    requires { length half.now ≡ 64 }
    ensures { Half enabled half.now 64 result }
{
    let mut fine = true;
    for (i, row) in half.iter().enumerate() {
        fine &= row_well_formed(row, bit_of(enabled, i as u64));
    }
    fine
}

// Whether the tables are well formed on the platform. It also tells the shape of the rows.
pub fn well_formed(p: &Platform, t: &Rows) -> bool
    ensures answer { result ≡ tables_well_formed p.now (seen t.now) }
    ensures shape { Shaped t.now }
{
    let (low, high) = t.split_at(HALF);
    half_well_formed(p.enabled.low, low) & half_well_formed(p.enabled.high, high)
}
