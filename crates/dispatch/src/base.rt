// Base: the version, the probe, and the numbers of the platform.
ghost use Rattle.std.specs.Prelude.{◌≡◌, List, ℕ};
ghost use Rattle.rules.specs.Base.{probed};
ghost use Rattle.rules.specs.Replies.{view, plain};
ghost use Rattle.rules.specs.Requests.{base_request};
ghost use Rattle.rules.specs.Machine.{plain_reply};
ghost use Rattle.tables.specs.Keeping.{seen, Shaped};
ghost use Rattle.dispatch.specs.Meets.{Keeps};

use crate::extensions::Extension;
use rules::answers::{Answer, Error, Registers, Success};
use rules::numbers::SPEC_VERSION;
use rules::platform::Platform;

// "probe (a0, all 64 bits) gives 1 for the five extensions, else 0"
fn probe(eid: u64) -> u64
    ensures { result ≡ probed eid }
{
    match Extension::try_from(eid) {
        Ok(_) => 1,
        Err(_) => 0,
    }
}

// "Base, seven functions: version ..; probe ..; the rest come from the platform." By number, as in
// `hsm`.
pub fn base(p: &Platform, r: Registers) -> Answer
    ensures { (t : List (List ℕ)) (h : ℕ) → Shaped t
        → Keeps t h (plain (view (seen t) h)
        (plain_reply p.now (view (seen t) h) (base_request r))) result }
{
    let value = match r.a6 {
        0 => SPEC_VERSION,
        1 => p.implementation,
        2 => p.version,
        3 => probe(r.a0),
        4 => p.vendor,
        5 => p.architecture,
        6 => p.machine,
        _ => return Err(Error::NotSupported.into()),
    };
    Ok(Success::value(value))
}
