// Waiting of a party in the hall: the whole numbers strictly between its lowest and its highest slot that are the slot of none of
// its appointments. One walk of the list flags the party's slots and counts the different ones; the numbers from the lowest to
// the highest less these are the waiting (the law `whole` in specs/Waiting.antt).
#![tactic(auto)]

ghost use Rattle.std.specs.Prelude.{◌≡◌, ◌+◌, ◌*◌, ◌/◌, ◌^◌, ◌<◌, ◌≤◌, true, false, min, max, length, replicate, set, take};
ghost use Rattle.appointments.specs.Appointments.{appts};
ghost use Rattle.appointments.specs.Refusals.{told};
ghost use Rattle.asking.specs.PartySlots.{slots_of};
ghost use Rattle.asking.specs.Waiting.{waiting, waiting_answer, WaitingFits};
ghost use Rattle.asking.specs.Noted.{Noted, unflagged};
ghost use Rattle.asking.specs.Spans.{no_span, included};

use appointments::Refusal;

// The lowest and the highest of some slots. Of none the lowest is 65,535, which no slot is above, and the highest 0.
#[derive(Clone, Copy)]
pub struct Span {
    pub lowest: u16,
    pub highest: u16,
}

impl Span {
    // Of no slots.
    pub fn none() -> Span
        ensures { result ≡ no_span }
    {
        Span {
            lowest: 65535,
            highest: 0,
        }
    }

    // Takes a slot in.
    pub fn include(&mut self, slot: u16)
        ensures { self.new ≡ included slot self.old }
    {
        self.lowest = self.lowest.min(slot);
        self.highest = self.highest.max(slot);
    }
}

// What is kept of a party's slots so far: the lowest, the highest, and how many different ones there are.
#[derive(Drop)]
struct OwnSlots {
    span: Span,
    different: usize,
}

impl OwnSlots {
    // Notes a slot of the party: flags it, and takes it into what is kept.
    fn note(&mut self, slot: u16, flags: &mut [bool; 65536])
        requires { self.old.different < 2 ^ 63 }
        ensures span { self.new.span ≡ included slot self.old.span }
        ensures different { self.new.different ≡ self.old.different + unflagged flags.old slot }
        ensures flags { flags.new ≡ set flags.old slot true }
    {
        let at = usize::from(slot);
        let was_flagged = flags[at];
        flags[at] = true;
        self.span.include(slot);
        self.different += usize::from(!was_flagged);
    }
}

// The walk: notes all slots of the party, over flags that are false. It ends with the list or with the slots.
fn note_all(list: &[u16], slots: &[u16], party: u16, flags: &mut [bool; 65536]) -> OwnSlots
    requires { flags.old ≡ replicate 65536 false }
    ensures { Noted (slots_of party (appts list.now) slots.now) flags.new result.span.lowest result.span.highest result.different }
{
    let mut kept = OwnSlots {
        span: Span::none(),
        different: 0,
    };
    let count = slots.len().min(list.len() / 2);
    for i in 0..count {
        if naming::named(list[2 * i], list[2 * i + 1], party) {
            kept.note(slots[i], flags);
        }
    }
    kept
}

// Waiting of a party, for a caller that has checked the list already. Any list and slots will do: an appointment without a slot, or
// a last number without a partner, counts for nothing.
pub fn waiting_of(list: &[u16], slots: &[u16], party: u16) -> usize
    ensures waiting { result ≡ waiting (appts list.now) slots.now party }
    ensures most { result ≤ 65534 }
{
    let mut flags = [false; 65536];
    let own = note_all(list, slots, party, &mut flags);
    if own.different == 0 {
        return 0;
    }
    let lowest = usize::from(own.span.lowest);
    let highest = usize::from(own.span.highest);
    highest - lowest + 1 - own.different
}

// Checks 1 to 5, then 7, then 5 with place 0 if the party inquired about is not below P.
pub fn waiting(p: u16, list: &[u16], slots: &[u16], party: u16) -> Result<usize, Refusal>
    ensures answer { told result ≡ waiting_answer p list.now slots.now party }
    ensures fits { WaitingFits result }
{
    checking::check_with_slots(usize::from(p), list, slots.len())?;
    if p <= party {
        return Err(Refusal::UnlistedEnd(0));
    }
    Ok(waiting_of(list, slots, party))
}
