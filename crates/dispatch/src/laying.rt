// Actions put into lent memory.
ghost use Rattle.std.specs.Prelude.{◌≡◌, ◌+◌, ◌≤◌, length};
ghost use Rattle.dispatch.specs.Meets.{put_action};

use rules::actions::Action;

// "An action is five words: target, kind, start, size, id." Five stores, not a copy of an array
// made for it, which takes some 17 instructions more for each action and 80 bytes more of stack:
// 592, where 512 are the limit (docs/MEASURES.md).
pub fn put_action(out: &mut [u64], at: usize, a: Action)
    requires { at + 5 ≤ length out.old }
    ensures { out.new ≡ put_action out.old at a }
{
    out[at] = a.target;
    out[at + 1] = a.kind;
    out[at + 2] = a.start;
    out[at + 3] = a.size;
    out[at + 4] = a.id;
}
