// The five extensions.
ghost use Rattle.dispatch.specs.Extensions.{ExtensionGiven};

use rules::answers::Error;
use rules::numbers::{BASE, HSM, IPI, PMU, RFENCE};

#[derive(Clone, Copy, Debug, PartialEq, Eq)]
pub enum Extension {
    Base,
    Ipi,
    Rfence,
    Hsm,
    Pmu,
}

// "Any other EID or FID, compared over all 64 bits of a7 and a6 (house), answers -2."
impl TryFrom<u64> for Extension {
    type Error = Error;

    ghost try_from_gives = { λ eid r. ExtensionGiven eid r };

    fn try_from(eid: u64) -> Result<Extension, Error> {
        match eid {
            BASE => Ok(Extension::Base),
            IPI => Ok(Extension::Ipi),
            RFENCE => Ok(Extension::Rfence),
            HSM => Ok(Extension::Hsm),
            PMU => Ok(Extension::Pmu),
            _ => Err(Error::NotSupported),
        }
    }
}
