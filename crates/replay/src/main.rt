// Runs the planning call on stored lists, and compares each answer with the stored one, which is the Rust's. Standard input has
// a line for each list, as `P first-second .. = planned D s0 s1 ..` or `P first-second .. = refused NUMBER PLACE`; a remark may
// follow a `#`. README.txt says how the lines were made. A line without a number before its `=` counts as different;
// numbers are cut to 16 bits.
#![tactic(auto)]

ghost use Rattle.std.specs.Prelude.{◌≡◌, ◌↔◌, [], ◌∷◌, IsTrue};
ghost use Rattle.appointments.specs.Lent.{lent};
ghost use Rattle.appointments.specs.Refusals.{refusal_number, refusal_place};
ghost use Rattle.replay.specs.Stored.{answer_told};

use appointments::Refusal;
use arrayvec::{ArrayVec, CapacityError};

// How many lists got the stored answer, and how many another one.
#[derive(Clone, Copy, Default)]
struct Counts {
    equal: usize,
    different: usize,
}

// Whether the stored answer is this plan.
fn same_plan(stored: &[u16], d: usize, plan: &[u16]) -> bool
    ensures { IsTrue result ↔ (stored.now ≡ 0 ∷ d ∷ plan.now) }
{
    match stored {
        [0, figure, slots @ ..] => usize::from(*figure) == d && slots == plan,
        _ => false,
    }
}

// Whether the stored answer is this refusal.
fn same_refusal(stored: &[u16], refusal: Refusal) -> bool
    ensures { IsTrue result ↔ (stored.now ≡ refusal_number refusal ∷ refusal_place refusal ∷ []) }
{
    match stored {
        [number, place] => u32::from(*number) == refusal.number()
            && usize::from(*place) == refusal.place(),
        _ => false,
    }
}

// Whether the planning call gives the stored answer.
fn agrees(p: u16, list: &[u16], stored: &[u16], slots: &mut [u16], scratch: &mut [u32]) -> bool
    ensures { IsTrue result ↔ (stored.now ≡ answer_told (lent p list.now slots.old scratch.old)) }
{
    match planning::bipartite_edge_color(p, list, slots, scratch) {
        Ok(d) => same_plan(stored, d, &slots[..list.len() / 2]),
        Err(refusal) => same_refusal(stored, refusal),
    }
}

// The numbers of a list or of an answer.
type Numbers = ArrayVec<u16, 256>;

// The value of digits, cut to 16 bits. A digit is the byte 48, which is 3 times 16, and its value.
fn value(digits: &[u8]) -> u16 {
    digits.iter().fold(0, |v: u16, byte| {
        v.wrapping_mul(10).wrapping_add(u16::from(byte % 16))
    })
}

// Puts the numbers of a text behind those that are there, if there is room for them.
fn push_numbers(text: &[u8], numbers: &mut Numbers) -> Result<(), CapacityError<u16>> {
    for digits in text.split(|byte| !byte.is_ascii_digit()) {
        if !digits.is_empty() {
            numbers.try_push(value(digits))?;
        }
    }
    Ok(())
}

// What stands before the first place of a mark, and what from there on.
fn cut(text: &[u8], mark: u8) -> (&[u8], &[u8]) {
    text.split_at(reading::find(text, mark).unwrap_or(text.len()))
}

// Whether the planning call gives the stored answer of a line. The list stands before the `=`, the answer behind it; as numbers a
// plan is told as 0, D and its slots, a refusal as its number and place. The word of a plan has a `p`, that of a refusal has none.
fn line_agrees(
    line: &[u8],
    slots: &mut [u16],
    scratch: &mut [u32],
) -> Result<bool, CapacityError<u16>> {
    let (line, _remark) = cut(line, b'#');
    let (list, answer) = cut(line, b'=');
    let mut numbers = Numbers::new();
    push_numbers(list, &mut numbers)?;
    let mut stored = Numbers::new();
    if answer.contains(&b'p') {
        stored.push(0);
    }
    push_numbers(answer, &mut stored)?;
    match numbers.split_first() {
        Some((p, list)) => Ok(agrees(*p, list, &stored, slots, scratch)),
        None => Ok(false),
    }
}

// All lines. The numbers, the slots and the scratch are long enough for every stored list: none has more than 127 appointments, and
// none needs more than 524,288 words of scratch. A list that they are too short for counts as different.
fn replay(input: &[u8]) -> Counts {
    let mut slots = [0u16; 128];
    let mut scratch = [0u32; 524_288];
    let mut counts = Counts::default();
    for line in input.split_inclusive(|byte| *byte == b'\n') {
        if line_agrees(line, &mut slots, &mut scratch).unwrap_or(false) {
            counts.equal += 1;
        } else {
            counts.different += 1;
        }
    }
    counts
}

// The stored lines are fewer than 65,536 bytes; of a longer input no more are read, and none behind a failed read.
fn main(rt: HostRuntime) {
    let mut input = [0u8; 65_536];
    let came = reading::read_full(&mut rt.stdin(), &mut input, 1);
    let counts = replay(came.bytes);
    let _ = println!(rt; "equal {}", counts.equal);
    let _ = println!(rt; "different {}", counts.different);
}
