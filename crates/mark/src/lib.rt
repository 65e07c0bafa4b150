// The scratch mark: one small record of how many words of the scratch are taken, lent to each step, which changes it.
#![tactic(auto)]

ghost use Rattle.std.specs.Prelude.{◌≡◌, ◌+◌, ◌^◌, ◌<◌, ◌≤◌};
ghost use Rattle.mark.specs.Taking.{taken_more, given_back};

// How many words are taken, all of them at the start of the scratch. How many there are the scratch itself says.
#[derive(Clone, Copy)]
pub struct Mark {
    pub taken: usize,
}

impl Mark {
    // Takes n words above those that are taken, and gives the place where they begin.
    pub fn take(&mut self, n: usize) -> usize
        requires { self.old.taken + n < 2 ^ 64 }
        ensures { (result ≡ self.old.taken) × (self.new ≡ taken_more n self.old) }
    {
        let at = self.taken;
        self.taken = at + n;
        at
    }

    // Gives back every word from a place on.
    pub fn give_back(&mut self, to: usize)
        requires { to ≤ self.old.taken }
        ensures { self.new ≡ given_back to self.old }
    {
        self.taken = to;
    }
}
