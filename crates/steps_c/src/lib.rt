// Single steps of the planner, exported so that the host can hold them beside the Rust's. No part of the product.
#![tactic(auto)]

ghost use Rattle.std.specs.Prelude.{◌≡◌, ◌+◌, ◌*◌, ◌≤◌};
ghost use Rattle.appointments.specs.Answers.{number_of, figure_of};
ghost use Rattle.appointments.specs.Refusals.{told};
ghost use Rattle.steps_c.specs.Compared.{TwoColored};
ghost use Rattle.euler.specs.Room.{Splits, HalvesStored};

use appointments::{Numbers, Refusal};
use mark::Mark;

// Number 0 and how many parties stand on the left, or the number of a refusal.
#[repr(C)]
#[derive(Drop)]
pub struct TwoColorAnswer {
    pub number: u32,
    pub left: u32,
}

// Checks 1 to 8 (a slot buffer is not needed), then `two_color`: how many parties stand on the left.
fn checked_two_color(p: u16, list: &[u16], scratch: &mut [u32]) -> Result<usize, Refusal>
    ensures colored { TwoColored p list.now scratch.old scratch.new (number_of (told result)) (figure_of (told result)) }
    ensures small { figure_of (told result) ≤ p }
{
    let parties = usize::from(p);
    let d = checking::check_all(parties, list, list.len(), scratch.len())?;
    two_color::two_sides(scratch, parties, d, list).ok_or(Refusal::OddRound)
}

// The left parties stand in the first words of scratch, the right ones from word P on.
#[unsafe(no_mangle)]
pub extern "C" fn bimtsure_two_color(p: u16, list: &[u16], scratch: &mut [u32]) -> TwoColorAnswer
    ensures { TwoColored p list.now scratch.old scratch.new result.number result.left }
{
    let answer = Numbers::of(checked_two_color(p, list, scratch), 0);
    TwoColorAnswer {
        number: answer.number,
        left: answer.figures as u32,
    }
}

// `rbmg_split_into_two` on a scratch of which `used` words are taken.
fn halves(s: &mut [u32], used: usize, ends: usize, g: usize, n: usize, width: usize)
    requires { Splits s.old used ends g n width }
    ensures { HalvesStored s.old s.new used (used + 4 * (n * (width + 1))) ends g n width }
{
    let mut m = Mark { taken: used };
    splitting::rbmg_split_into_two(s, &mut m, ends, g, n, width);
}

// One split of a graph in words, whose ends stand in a table at `ends`: the halves stand at the mark `used` and 2·n·(width + 1)
// words above it. Gives the new mark. The caller lends a regular graph of even degree, as the split itself asks.
#[unsafe(no_mangle)]
pub extern "C" fn bimtsure_split(
    scratch: &mut [u32],
    used: usize,
    ends: usize,
    g: usize,
    n: usize,
    width: usize,
) -> usize
    requires { Splits scratch.old used ends g n width }
    ensures { HalvesStored scratch.old scratch.new used result ends g n width }
{
    halves(scratch, used, ends, g, n, width);
    used + 4 * (n * (width + 1))
}
