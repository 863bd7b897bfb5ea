// The platform record: what a module is made of.
ghost use Rattle.std.specs.Prelude.{◌≡◌, not, ◌||◌, ◌<◌};
ghost use Rattle.rules.specs.Names.{harts};
ghost use Rattle.rules.specs.Sets.{bit, every, all};
ghost use Rattle.rules.specs.Platform.{has, enabled, hypervisor, used_ranges};
ghost use Rattle.rules.specs.Platform.{lies_in, valid_address, range_accepted, within_limits};
ghost use Rattle.rules.specs.Platform.{platform_accepted, HartGiven};

use crate::ids::HartId;
use crate::numbers::{HARTS, MAX_ASID_WIDTH, MAX_RANGES, MAX_VMID_WIDTH};

// A set of harts as two words of bits: bit h of low is hart h, bit h of high is hart 64 + h. Two
// words and not a u128: a hart is asked of the one word that holds it, and the host has words.
#[derive(Clone, Copy, Debug, PartialEq, Eq)]
pub struct HartSet {
    pub low: u64,
    pub high: u64,
}

// The addresses from base to base + length - 1.
#[derive(Clone, Copy, Debug, PartialEq, Eq)]
pub struct Range {
    pub base: u64,
    pub length: u64,
}

#[derive(Clone, Copy, Debug, PartialEq, Eq)]
pub struct Platform {
    pub enabled: HartSet,
    // those with the hypervisor extension
    pub hypervisor: HartSet,
    pub boot: u64,
    // How many of the ranges are used; the others are never looked at. A count beside an array,
    // since the host lays the record out, and a count over 8 is a ground of H1
    // (`platform_accepted`).
    pub used: u64,
    pub ranges: [Range; 8],
    // the widths of ASID and VMID in bits
    pub asid: u64,
    pub vmid: u64,
    // the five numbers that Base reports besides the specification version
    pub implementation: u64,
    pub version: u64,
    pub vendor: u64,
    pub architecture: u64,
    pub machine: u64,
}

// Bit i of a word.
#[tactic(auto, unfolding(crate::specs::Sets::bit))]
pub fn bit_of(word: u64, i: u64) -> bool
    requires { i < 64 }
    ensures { result ≡ bit word i }
{
    (word >> i) % 2 == 1
}

impl HartSet {
    // Whether hart h is in the set: no number over 127 is.
    #[tactic(auto, using(crate::proofs::Logic::choice), unfolding(crate::specs::Platform::has))]
    pub fn has(self, h: u64) -> bool
        ensures { result ≡ has self h }
    {
        match h {
            0..64 => bit_of(self.low, h),
            64..HARTS => bit_of(self.high, h - 64),
            _ => false,
        }
    }

    // Whether it has each hart of another set, tested on the words.
    pub fn covers(self, other: HartSet) -> bool
        ensures { result ≡ every harts (λ h. not (has other h) || has self h) }
    {
        other.low & self.low == other.low && other.high & self.high == other.high
    }
}

impl Range {
    // Whether an address lies in it: "base ≤ address < base + length".
    #[tactic(auto, unfolding(crate::specs::Platform::lies_in))]
    pub fn holds(self, a: u64) -> bool
        ensures { result ≡ lies_in a self }
    {
        a >= self.base && a - self.base < self.length
    }

    // Whether it is neither of "length zero" nor "runs past 2^64".
    #[tactic(auto, unfolding(crate::specs::Platform::range_accepted))]
    pub fn accepted(self) -> bool
        ensures { result ≡ range_accepted 64 self }
    {
        self.length > 0 && self.length - 1 <= u64::MAX - self.base
    }
}

impl Platform {
    // The ranges that are used.
    #[tactic(auto, unfolding(crate::specs::Platform::used_ranges))]
    fn used_ranges(&self) -> &[Range]
        ensures { result.now ≡ used_ranges self.now }
    {
        &self.ranges[..self.used.min(MAX_RANGES) as usize]
    }

    // Whether hart h is enabled.
    #[tactic(auto, unfolding(crate::specs::Platform::enabled))]
    pub fn is_enabled(&self, h: u64) -> bool
        ensures { result ≡ enabled self.now h }
    {
        self.enabled.has(h)
    }

    // Hart h, if it is enabled: "the hart number is not enabled or is over 127" is H2.
    #[tactic(auto, using(crate::proofs::WellFormed::enabled_under))]
    pub fn hart(&self, h: u64) -> Option<HartId>
        ensures { HartGiven self.now h result }
    {
        if self.is_enabled(h) {
            return Some(HartId { number: h });
        }
        None
    }

    // Whether hart h has the hypervisor extension.
    #[tactic(auto, unfolding(crate::specs::Platform::hypervisor))]
    pub fn has_hypervisor(&self, h: u64) -> bool
        ensures { result ≡ hypervisor self.now h }
    {
        self.hypervisor.has(h)
    }

    // Whether a hart may be sent to an address: "it is even and lies in a range".
    #[tactic(auto, unfolding(crate::specs::Platform::valid_address))]
    pub fn valid_address(&self, a: u64) -> bool
        ensures { result ≡ valid_address self.now a }
    {
        a % 2 == 0 && self.used_ranges().iter().any(|range| range.holds(a))
    }

    // Whether each hart with the hypervisor extension is enabled.
    #[tactic(auto, unfolding(crate::specs::Platform::enabled, crate::specs::Platform::hypervisor))]
    fn hypervisors_enabled(&self) -> bool
        ensures { result ≡ every harts (λ h. not (hypervisor self.now h) || enabled self.now h) }
    {
        self.enabled.covers(self.hypervisor)
    }

    // Whether no "count or width is over its limit".
    fn within_limits(&self) -> bool
        ensures { result ≡ within_limits self.now }
    {
        self.used <= MAX_RANGES && self.asid <= MAX_ASID_WIDTH && self.vmid <= MAX_VMID_WIDTH
    }

    // Whether no used range is of "length zero" or "runs past 2^64".
    fn ranges_accepted(&self) -> bool
        ensures { result ≡ all (range_accepted 64) (used_ranges self.now) }
    {
        self.used_ranges().iter().all(|range| range.accepted())
    }

    // Whether no ground of H1 holds against it.
    #[tactic(auto, unfolding(crate::specs::Platform::platform_accepted))]
    pub fn accepted(&self) -> bool
        ensures { result ≡ platform_accepted self.now }
    {
        self.is_enabled(self.boot)
            && self.hypervisors_enabled()
            && self.within_limits()
            && self.ranges_accepted()
    }
}
