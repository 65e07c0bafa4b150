// The planning call and the desk's calls for C and Rust: numbers and slices in, a struct of numbers out. Each entry only turns
// the answer into numbers, and says that they are the definitions', for acceptance and for every refusal. host/include/bimtsure.h
// declares them.
#![tactic(auto)]

ghost use Rattle.std.specs.Prelude.{◌≡◌};
ghost use Rattle.appointments.specs.Needed.{needs_answer, d_of, words_of};
ghost use Rattle.planning.specs.Planning.{plan_answer, plan_slots, plan_scratch};
ghost use Rattle.planning.specs.Demand3.{Demand3};
ghost use Rattle.bimtsure_c.specs.Planned.{answer_by};
ghost use Rattle.appointments.specs.Answers.{number_of, place_of, figure_of};
ghost use Rattle.appointments.specs.Lent.{lent};
ghost use Rattle.appointments.specs.Refusals.{told};
ghost use Rattle.asking.specs.Waiting.{waiting_answer};
ghost use Rattle.asking_many.specs.Many.{many_answer, many_output};
ghost use Rattle.filing.specs.Filed.{writing_answer, writing_output, reading_answer, reading_list, reading_slots, parties_of, appointments_of};
ghost use Rattle.viewing.specs.Viewer.{viewer_answer, view_step, view_next};
ghost use Rattle.bimtsure_c.specs.Viewed.{if_open, found_of, position_of, slot_of, shown, step_from};

use appointments::{Needs, Numbers, Refusal};
use filing::Header;
use viewing::{Seen, Viewer};

// Number, place, and D.
#[repr(C)]
#[derive(Drop)]
pub struct BimtsureAnswer {
    pub number: u32,
    pub place: u32,
    pub d: u32,
}

// Number, place, D, and W, the words that scratch needs; the figures of a refusal are 0, here and below.
#[repr(C)]
#[derive(Drop)]
pub struct BimtsureNeeds {
    pub number: u32,
    pub place: u32,
    pub d: u32,
    pub words: u32,
}

// Number, place, and the party's waiting.
#[repr(C)]
#[derive(Drop)]
pub struct BimtsureWaiting {
    pub number: u32,
    pub place: u32,
    pub waiting: u32,
}

// Number and place: asking for many parties has no figure, its answers stand in the output.
#[repr(C)]
#[derive(Drop)]
pub struct BimtsureMany {
    pub number: u32,
    pub place: u32,
}

// Number, place, and how many bytes were written.
#[repr(C)]
#[derive(Drop)]
pub struct BimtsureFiled {
    pub number: u32,
    pub place: u32,
    pub length: u32,
}

// Number, place, P and A.
#[repr(C)]
#[derive(Drop)]
pub struct BimtsureRead {
    pub number: u32,
    pub place: u32,
    pub parties: u32,
    pub appointments: u32,
}

// Number and place; 1 for an appointment with its position and slot, or 0 for the end; and where the viewer then stands. Positions
// are as wide as a list's length, since opening bounds no list.
#[repr(C)]
#[derive(Drop)]
pub struct BimtsureView {
    pub number: u32,
    pub place: u32,
    pub found: u32,
    pub position: usize,
    pub slot: u32,
    pub next: usize,
}

// What a step of the viewer shows, an appointment or the end, and where the viewer then stands.
#[derive(Clone, Copy, Default)]
struct Shown {
    seen: Option<Seen>,
    next: usize,
}

// The planning call: a slot for each appointment of the list, or a refusal.
#[unsafe(no_mangle)]
pub extern "C" fn bimtsure_plan(
    p: u16,
    list: &[u16],
    slots: &mut [u16],
    scratch: &mut [u32],
) -> BimtsureAnswer
    ensures number { result.number ≡ number_of (plan_answer (lent p list.now slots.old scratch.old)) }
    ensures place { result.place ≡ place_of (plan_answer (lent p list.now slots.old scratch.old)) }
    ensures d { result.d ≡ figure_of (plan_answer (lent p list.now slots.old scratch.old)) }
    ensures slots { slots.new ≡ plan_slots (lent p list.now slots.old scratch.old) }
    ensures scratch { scratch.new ≡ plan_scratch (lent p list.now slots.old scratch.old) }
    ensures demand_3 { Demand3 (lent p list.now slots.old scratch.old) (answer_by result.number result.place result.d) slots.new }
{
    let plan = Numbers::of(planning::bipartite_edge_color(p, list, slots, scratch), 0);
    BimtsureAnswer {
        number: plan.number,
        place: plan.place as u32,
        d: plan.figures as u32,
    }
}

// How much scratch a list needs: checks 1 to 6 of the planning call, then D and W.
#[unsafe(no_mangle)]
pub extern "C" fn bimtsure_needs(p: u16, list: &[u16]) -> BimtsureNeeds
    ensures number { result.number ≡ number_of (needs_answer p list.now) }
    ensures place { result.place ≡ place_of (needs_answer p list.now) }
    ensures d { result.d ≡ d_of (needs_answer p list.now) }
    ensures words { result.words ≡ words_of (needs_answer p list.now) }
{
    let needs = Numbers::of(checking::needs(usize::from(p), list), Needs::default());
    BimtsureNeeds {
        number: needs.number,
        place: needs.place as u32,
        d: needs.figures.d as u32,
        words: needs.figures.words as u32,
    }
}

// Waiting of a party, between its lowest and its highest slot.
#[unsafe(no_mangle)]
pub extern "C" fn bimtsure_waiting(
    p: u16,
    list: &[u16],
    slots: &[u16],
    party: u16,
) -> BimtsureWaiting
    ensures number { result.number ≡ number_of (waiting_answer p list.now slots.now party) }
    ensures place { result.place ≡ place_of (waiting_answer p list.now slots.now party) }
    ensures waiting { result.waiting ≡ figure_of (waiting_answer p list.now slots.now party) }
{
    let waiting = Numbers::of(asking::waiting(p, list, slots, party), 0);
    BimtsureWaiting {
        number: waiting.number,
        place: waiting.place as u32,
        waiting: waiting.figures as u32,
    }
}

// Load, lowest slot and highest slot of each party asked for.
#[unsafe(no_mangle)]
pub extern "C" fn bimtsure_ask_many(
    p: u16,
    list: &[u16],
    slots: &[u16],
    parties: &[u16],
    output: &mut [u16],
) -> BimtsureMany
    ensures number { result.number ≡ number_of (many_answer p list.now slots.now parties.now output.old) }
    ensures place { result.place ≡ place_of (many_answer p list.now slots.now parties.now output.old) }
    ensures output { output.new ≡ many_output p list.now slots.now parties.now output.old }
{
    let many = Numbers::of(asking_many::ask_many(p, list, slots, parties, output), ());
    BimtsureMany {
        number: many.number,
        place: many.place as u32,
    }
}

// Writing a filed plan.
#[unsafe(no_mangle)]
pub extern "C" fn bimtsure_file_plan(
    p: u16,
    list: &[u16],
    slots: &[u16],
    output: &mut [u8],
) -> BimtsureFiled
    ensures number { result.number ≡ number_of (writing_answer p list.now slots.now output.old) }
    ensures place { result.place ≡ place_of (writing_answer p list.now slots.now output.old) }
    ensures length { result.length ≡ figure_of (writing_answer p list.now slots.now output.old) }
    ensures bytes { output.new ≡ writing_output p list.now slots.now output.old }
{
    let filed = Numbers::of(filing::file_plan(p, list, slots, output), 0);
    BimtsureFiled {
        number: filed.number,
        place: filed.place as u32,
        length: filed.figures as u32,
    }
}

// Reading a filed plan.
#[unsafe(no_mangle)]
pub extern "C" fn bimtsure_read_plan(
    bytes: &[u8],
    list: &mut [u16],
    slots: &mut [u16],
) -> BimtsureRead
    ensures number { result.number ≡ number_of (reading_answer bytes.now list.old slots.old) }
    ensures place { result.place ≡ place_of (reading_answer bytes.now list.old slots.old) }
    ensures parties { result.parties ≡ parties_of (reading_answer bytes.now list.old slots.old) }
    ensures appointments { result.appointments ≡ appointments_of (reading_answer bytes.now list.old slots.old) }
    ensures list { list.new ≡ reading_list bytes.now list.old slots.old }
    ensures slots { slots.new ≡ reading_slots bytes.now list.old slots.old }
{
    let read = Numbers::of(filing::read_plan(bytes, list, slots), Header::default());
    BimtsureRead {
        number: read.number,
        place: read.place as u32,
        parties: u32::from(read.figures.parties),
        appointments: read.figures.appointments as u32,
    }
}

// Opening a viewer over the list and its slots, then one step of it from a position.
fn view<'a>(list: &'a [u16], slots: &'a [u16], party: u16, from: usize) -> Result<Shown, Refusal>
    ensures { told result ≡ shown (viewer_answer list.now slots.now) (step_from party list.now slots.now from) }
{
    let mut viewer = Viewer::open(list, slots)?;
    viewer.at = from;
    let seen = viewer.step(party);
    Ok(Shown {
        seen,
        next: viewer.at,
    })
}

// One step of a viewer, from a position to the party's next appointment.
#[unsafe(no_mangle)]
pub extern "C" fn bimtsure_view<'a>(
    list: &'a [u16],
    slots: &'a [u16],
    party: u16,
    from: usize,
) -> BimtsureView
    ensures number { result.number ≡ number_of (viewer_answer list.now slots.now) }
    ensures place { result.place ≡ place_of (viewer_answer list.now slots.now) }
    ensures found { result.found ≡ if_open (viewer_answer list.now slots.now) (found_of (view_step party list.now slots.now from)) }
    ensures position { result.position ≡ if_open (viewer_answer list.now slots.now) (position_of (view_step party list.now slots.now from)) }
    ensures slot { result.slot ≡ if_open (viewer_answer list.now slots.now) (slot_of (view_step party list.now slots.now from)) }
    ensures next { result.next ≡ if_open (viewer_answer list.now slots.now) (view_next party list.now slots.now from) }
{
    let viewed = Numbers::of(view(list, slots, party, from), Shown::default());
    let (found, position, slot) = match viewed.figures.seen {
        Some(seen) => (1, seen.position, u32::from(seen.slot)),
        None => (0, 0, 0),
    };
    BimtsureView {
        number: viewed.number,
        place: viewed.place as u32,
        found,
        position,
        slot,
        next: viewed.figures.next,
    }
}
