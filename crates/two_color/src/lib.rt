// `two_color`, module 2 of document 01: puts the parties of a list of appointments on two sides, left and right, such that the
// two ends of every appointment are on different sides; or finds that this cannot be done. Its meaning is the definition
// `two_color` in the crate `bipartition`; its steps over words are in the crate `two_color_steps`, whose first lines draw where things lie.
// Here they are put together, the mark is moved, and the words are shown to hold what the definition says.
//
// Ported from rustworkx-core, `two_color` in coloring.rs (Apache License 2.0, see NOTICE).
#![tactic(auto)]

ghost use Rattle.std.specs.Prelude.{◌≡◌, ◌+◌, ◌*◌, ◌≤◌};
ghost use Rattle.mark.specs.Taking.{taken_more};
ghost use Rattle.two_color.specs.Contract.{CanColor, Colored};

use mark::Mark;
use two_color_steps::Layout;

// `two_color` by numbers, without the mark: how many parties are on the left, or none where some closed round of appointments has odd
// length. The left side is at `at.u` and the right side p words above it. Everything below `at.u` stays.
fn color_at(s: &mut [u32], at: Layout, list: &[u16]) -> Option<usize>
    requires { CanColor at.p at.d at.u list.now s.old }
    ensures { Colored at.p list.now at.u s.old (at.u + 2 * at.p) s.new result }
{
    if at.p == 0 {
        return Some(0);
    }
    at.prepare(s, list);
    at.all_steps(s);
    let refused = words::get(s, at.refused_place());
    if refused != 0 {
        return None;
    }
    let left = words::get(s, at.left_count());
    Some(left)
}

// Takes the words that it needs (the five words of state count as 5·p), and gives back all but the two sides, also where it
// refuses: the left side is at the old mark and the right side p words above it. Everything below the old mark stays.
pub fn two_color(s: &mut [u32], m: &mut Mark, p: usize, d: usize, list: &[u16]) -> Option<usize>
    requires { CanColor p d m.old.taken list.now s.old }
    ensures { Colored p list.now m.old.taken s.old m.new.taken s.new result × (m.new ≡ taken_more (2 * p) m.old) }
{
    let n = 11 * p + d * p;
    let u = m.take(n);
    let r = color_at(s, Layout { u, p, d }, list);
    let top = u + 2 * p;
    m.give_back(top);
    r
}

// `two_color` on a scratch of which nothing is taken: the left side is at word 0 and the right side at word p.
pub fn two_sides(s: &mut [u32], p: usize, d: usize, list: &[u16]) -> Option<usize>
    requires { CanColor p d 0 list.now s.old }
    ensures { Colored p list.now 0 s.old (2 * p) s.new result }
{
    let mut m = Mark { taken: 0 };
    two_color(s, &mut m, p, d, list)
}
