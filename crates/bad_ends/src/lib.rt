// The first bad ends of a list, both from one walk: what check 4 asks, the first blank end, and what check 5 asks, the first other end that is not below
// P. The walk goes to the end of the list: after one kind of bad end the other may still come.
#![tactic(auto)]

ghost use Rattle.std.specs.Prelude.{◌≡◌, eqb};
ghost use Rattle.appointments.specs.Appointments.{appts};
ghost use Rattle.appointments.specs.Checks.{blank, first_of, unlisted};
ghost use Rattle.appointments.specs.BadEnds.{FirstBadEnds};
ghost use Rattle.bad_ends.specs.Noted.{noted};

use appointments::BLANK;

// What the walk remembers: the first position for 4 and the first for 5.
#[derive(Clone, Copy, Default)]
pub struct BadEnds {
    pub blank: Option<usize>,
    pub unlisted: Option<usize>,
}

// What is kept once an end at position `i` is noted: `i` if the end passes the test and there is none yet. What was found before stays.
fn noted(i: usize, passes: bool, kept: Option<usize>) -> Option<usize>
    ensures { result ≡ noted i passes kept }
{
    if passes { kept.or(Some(i)) } else { kept }
}

impl BadEnds {
    // Notes an end of the appointment at position `i`. An end below P is neither blank nor unlisted, any other is one of the two.
    fn note(&mut self, i: usize, p: u16, end: u16)
        ensures blank { self.new.blank ≡ noted i (eqb end blank) self.old.blank }
        ensures unlisted { self.new.unlisted ≡ noted i (unlisted p end) self.old.unlisted }
    {
        if p <= end {
            self.blank = noted(i, end == BLANK, self.blank);
            self.unlisted = noted(i, end != BLANK, self.unlisted);
        }
    }
}

// The walk: the first position for 4 and the first for 5 in the whole list, and none exactly where there is none.
pub fn first_bad_ends(p: u16, list: &[u16]) -> BadEnds
    ensures { FirstBadEnds p (appts list.now) (first_of result.blank) (first_of result.unlisted) }
{
    let mut seen = BadEnds::default();
    for (i, &[first, second]) in list.as_chunks::<2>().0.iter().enumerate() {
        seen.note(i, p, first);
        seen.note(i, p, second);
    }
    seen
}
