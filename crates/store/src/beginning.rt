// Fresh tables.
ghost use Rattle.std.specs.Prelude.{◌≡◌};
ghost use Rattle.rules.specs.Platform.{platform_accepted};
ghost use Rattle.store.specs.Seen.{fresh_made, FreshOr};

use crate::rows::{Row, Rows, STARTED_WORD, STATE, STOPPED_WORD, WORDS};
use rules::answers::Refusal;
use rules::platform::Platform;

// "Boot hart STARTED, every other STOPPED, sleep notes retentive, 0, 0, all counters unmapped,
// stopped, zero." A platform that is not accepted is refused, and the rows stay as they were.
pub fn make_fresh(p: &Platform, t: &mut Rows) -> Result<(), Refusal>
    ensures answer { result ≡ fresh_made p.now }
    ensures rows { FreshOr (platform_accepted p.now) p.now t.old t.new }
{
    if !p.accepted() {
        return Err(Refusal::NotWellFormed);
    }
    let mut stopped: Row = [0; WORDS];
    stopped[STATE] = STOPPED_WORD;
    t.fill(stopped);
    t[p.boot as usize][STATE] = STARTED_WORD;
    Ok(())
}
