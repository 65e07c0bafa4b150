// The two sides of an appointment or a pair: its two ends stand next to each other, the first before the second.
ghost use Rattle.std.specs.Prelude.{◌≡◌, ◌%◌};
ghost use Rattle.words.specs.Sides.{offset_of, mate};

// The side on which an end stands.
#[derive(Clone, Copy, Debug, PartialEq, Eq)]
pub enum Side {
    First,
    Second,
}

impl Side {
    // How far from the first end the one on this side stands.
    pub fn offset(self) -> usize
        ensures { result ≡ offset_of self }
    {
        match self {
            Side::First => 0,
            Side::Second => 1,
        }
    }

    // The side of a half-edge: 2·e stands at the first end of the pair number e, and 2·e + 1 at its second.
    pub fn of_half_edge(y: usize) -> Side
        ensures { offset_of result ≡ y % 2 }
    {
        if y % 2 == 0 {
            Side::First
        } else {
            Side::Second
        }
    }
}

// The half-edge at the other end of the same appointment or pair.
#[tactic(auto, using(crate::proofs::Sides::flipped))]
pub fn other_half(h: usize) -> usize
    ensures { result ≡ mate h }
{
    h ^ 1
}
