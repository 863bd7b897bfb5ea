// A selection, asked of each hart: which harts a mask selects and reaches, one action for each, and
// one event for each but the caller.
ghost use Rattle.std.specs.Prelude.{◌≡◌, true, not, ◌||◌, map, ◌<◌, ◌≤◌, length};
ghost use Rattle.rules.specs.Names.{harts, action_memory};
ghost use Rattle.rules.specs.Sets.{every, those};
ghost use Rattle.rules.specs.Platform.{hypervisor};
ghost use Rattle.rules.specs.Masks.{selection_fits, bit_fits, selects, reaches, is_reached};
ghost use Rattle.rules.specs.Masks.{action_for};
ghost use Rattle.rules.specs.Replies.{words_of, laid};
ghost use Rattle.tables.specs.Keeping.{seen, Shaped, Holds};
ghost use Rattle.dispatch.specs.Meets.{told_one, told};

use crate::laying::put_action;
use rules::actions::Action;
use rules::ids::{HartId, SentCode};
use rules::numbers::{ACTION_WORDS, ALL_ONES, HARTS, STOP_PENDING, STOPPED};
use rules::platform::{Platform, bit_of};
use tables::Rows;

// A mask of harts and its base, as a0 and a1 hold them.
#[derive(Clone, Copy, Debug, PartialEq, Eq)]
pub struct Selection {
    pub mask: u64,
    pub base: u64,
}

impl Selection {
    // Whether bit i of the mask, if it is set, selects an enabled hart: base + i is summed below
    // 192.
    #[tactic(auto, using(crate::proofs::Tests::of_harts), unfolding(rules::specs::Masks::bit_fits))]
    fn bit_fits(self, p: &Platform, i: u64) -> bool
        requires { i < 64 }
        ensures { result ≡ bit_fits p.now self.mask self.base i }
    {
        !bit_of(self.mask, i) || self.base < HARTS && p.is_enabled(self.base + i)
    }

    // Whether each selected number is an enabled hart.
    pub fn fits(self, p: &Platform) -> bool
        ensures { result ≡ selection_fits p.now self.mask self.base }
    {
        self.base == ALL_ONES || (0..64).all(|i| self.bit_fits(p, i))
    }

    // Whether a mask that fits selects hart h. A hart below the base goes by a branch of its own:
    // both bounds in one test take some three instructions more a hart.
    #[tactic(auto, using(crate::proofs::Tests::of_harts))]
    fn selects(self, p: &Platform, h: u64) -> bool
        ensures { result ≡ selects p.now self.mask self.base h }
    {
        if self.base == ALL_ONES {
            return p.is_enabled(h);
        }
        if h < self.base {
            return false;
        }
        let i = h - self.base;
        i < 64 && bit_of(self.mask, i)
    }

    // Whether a mask that fits selects and reaches hart h.
    #[tactic(auto, unfolding(rules::specs::Masks::reaches))]
    fn reaches(self, p: &Platform, t: &Rows, h: HartId) -> bool
        ensures { result ≡ reaches p.now (seen t.now).harts self.mask self.base h.number }
    {
        self.selects(p, h.number) && is_reached(t, h)
    }

    // Whether hart h, if it is selected, has the hypervisor extension.
    fn hypervisor_fits(self, p: &Platform, h: u64) -> bool
        ensures { result ≡ (not (selects p.now self.mask self.base h) || hypervisor p.now h) }
    {
        !self.selects(p, h) || p.has_hypervisor(h)
    }

    // Whether each selected hart has the hypervisor extension: by the words of both sets where all
    // enabled harts are selected.
    pub fn all_hypervisors(self, p: &Platform) -> bool
        ensures { result ≡ every harts
            (λ h. not (selects p.now self.mask self.base h) || hypervisor p.now h) }
    {
        if self.base == ALL_ONES {
            return p.hypervisor.covers(p.enabled);
        }
        (0..HARTS).all(|h| self.hypervisor_fits(p, h))
    }
}

// "A selected hart is reached unless STOPPED or STOP_PENDING (house)."
#[tactic(auto, unfolding(rules::specs::Masks::is_reached))]
fn is_reached(t: &Rows, h: HartId) -> bool
    ensures { result ≡ is_reached (seen t.now).harts h.number }
{
    !matches!(tables::get_hart(t, h).state, STOPPED | STOP_PENDING)
}

// One action like this one for each hart that is selected and reached, ascending; how many there
// are, counted by hand, since an iterator that numbers them would not say it at its end.
pub fn lay(p: &Platform, t: &Rows, out: &mut [u64], whom: Selection, like: Action) -> u64
    requires { action_memory ≤ length out.old }
    ensures number { result
        ≡ length (those harts (reaches p.now (seen t.now).harts whom.mask whom.base)) }
    ensures words { out.new
        ≡ laid (words_of (map (action_for like.kind like.start like.size like.id)
        (those harts (reaches p.now (seen t.now).harts whom.mask whom.base)))) out.old }
{
    let mut n: usize = 0;
    for number in 0..HARTS {
        if whom.reaches(p, t, HartId { number }) {
            put_action(
                out,
                ACTION_WORDS * n,
                Action {
                    target: number,
                    ..like
                },
            );
            n += 1;
        }
    }
    n as u64
}

// One sent event at the caller and one received event at hart k, unless they are one.
#[tactic(auto, using(rules::proofs::Logic::choice), unfolding(rules::specs::Replies::tell_one))]
fn tell_one(t: &mut Rows, caller: HartId, code: SentCode, k: HartId)
    requires { Shaped t.old }
    ensures { Holds t.new (told_one (seen t.old) caller.number code.number k.number) }
{
    if k != caller {
        tables::count(t, caller, code.sent());
        tables::count(t, k, code.received());
    }
}

// "For each reached hart other than the caller, the caller has one sent event and the target one
// received event." It asks each hart anew: the rows that it asks are those that it writes, so that
// no iterator over the reached harts could lend them to `lay` and to it.
pub fn tell(p: &Platform, t: &mut Rows, whom: Selection, caller: HartId, code: SentCode)
    requires { Shaped t.old }
    ensures { Holds t.new (told (seen t.old) caller.number code.number
        (those harts (reaches p.now (seen t.old).harts whom.mask whom.base))) }
{
    for number in 0..HARTS {
        let h = HartId { number };
        if whom.reaches(p, t, h) {
            tell_one(t, caller, code, h);
        }
    }
}
