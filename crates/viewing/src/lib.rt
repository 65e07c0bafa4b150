// Document 01's viewer: opening it, and the viewer itself, which searches the list from where it stands.
#![tactic(auto)]

ghost use Rattle.std.specs.Prelude.{◌≡◌, IfOk};
ghost use Rattle.viewing.specs.Viewer.{viewer_answer, view_step};
ghost use Rattle.viewing.specs.Told.{opened, stepped};

use appointments::Refusal;

// One appointment as the viewer shows it.
#[derive(Clone, Copy, Debug, PartialEq, Eq)]
pub struct Seen {
    pub position: usize,
    pub slot: u16,
}

// The viewer itself: it reads the list and its slots by reference, and stands at a position. Any list, any slots and any position will do.
#[derive(Clone, Copy)]
pub struct Viewer<'a> {
    pub list: &'a [u16],
    pub slots: &'a [u16],
    pub at: usize,
}

impl<'a> Viewer<'a> {
    // A viewer that stands before the first appointment.
    pub fn over(list: &'a [u16], slots: &'a [u16]) -> Viewer<'a>
        ensures { (result.list ≡ list.entry) × (result.slots ≡ slots.entry) × (result.at ≡ 0) }
    {
        Viewer { list, slots, at: 0 }
    }

    // Opening a viewer: it refuses 2, then 7.
    pub fn open(list: &'a [u16], slots: &'a [u16]) -> Result<Viewer<'a>, Refusal>
        ensures answer { opened result ≡ viewer_answer list.now slots.now }
        ensures viewer { IfOk result (λ v. (v.list ≡ list.entry) × (v.slots ≡ slots.entry) × (v.at ≡ 0)) }
    {
        checking::check_even(list)?;
        checking::check_slots(slots.len(), list.len() / 2)?;
        Ok(Viewer::over(list, slots))
    }

    // One step: the first appointment from where the viewer stands that names the party, or the end. The viewer then stands behind what it
    // showed, so one that names the party twice is shown once; at the end it stays. A slot that isn't there is 0.
    pub fn step(&mut self, party: u16) -> Option<Seen>
        ensures seen { result ≡ view_step party self.old.list.now self.old.slots.now self.old.at }
        ensures stands { self.new ≡ stepped party self.old }
    {
        let appointments = self.list.as_chunks::<2>().0;
        let count = appointments.len();
        for i in self.at..count {
            let [first, second] = appointments[i];
            if naming::named(first, second, party) {
                self.at = i + 1;
                return Some(Seen {
                    position: i,
                    slot: self.slots.get(i).copied().unwrap_or(0),
                });
            }
        }
        self.at = count;
        None
    }
}
