// The steps of `two_color`, module 2 of document 01, over scratch words: the rows of neighbours are filled, then the search colours the
// parties. What each function here does to the words is its model in specs/Model.antt, and what it asks of the words where it doesn't test a
// place is in specs/Bounds.antt. That the steps together give `two_color` is shown in the crate `two_color`, which calls them.
//
// The words that they take start at `u`, p words for each of the first four, d words for each row:
//   u          left, the parties of colour 0 in order of first colouring
//   u + p      right, those of colour 1
//   u + 2p     the stack
//   u + 3p     each party's colour, and 2 while it has none
//   u + 4p     five words: is it refused; the next party to start from; how many are on the stack, on the left, on the right
//   u + 4p + 5 for each party the length of its row and where its row starts
//   u + 6p + 5 the rows: a party's neighbours, in the order in which they are looked at
// All that the search reads only lies above all that it writes.
//
// Ported from rustworkx-core, `two_color` in coloring.rs (Apache License 2.0, see NOTICE).
#![tactic(auto)]

ghost use Rattle.std.specs.Prelude.{◌≡◌, ◌+◌, ◌*◌, ◌-◌, ◌/◌, ◌<◌, ◌≤◌, length};
ghost use Rattle.words.specs.Sides.{offset_of};
ghost use Rattle.words.specs.Words.{word, word_limit};
ghost use Rattle.two_color_steps.specs.Model.{right_place, stack_place, colour_place, refused_place, next_place, stack_count, left_count, right_count, row_count, row_start, row_place};
ghost use Rattle.two_color_steps.specs.Model.{clear_state_m, start_party_m, start_parties_m, push_end_m, fill_rows_m, color_party_m, touch_m, look_m, touch_all_m, take_off_m, next_party_m, step_m, steps_m, prepare_m};
ghost use Rattle.two_color_steps.specs.Bounds.{CanPush, CanFill, CanPrepare, CanColorParty, CanTouch, CanLook, CanLookAll, CanTakeOff, CanGoOn, CanStep, CanStepAll};

use words::{NodeIndex, Side, append, set_word, word_at};

// What stands in a colour's place while the party has none.
const NO_COLOUR: usize = 2;

// Where the words of a search start, how many parties it colours, and how many words each party's row has. They are small, so that
// sums of addresses are numbers.
#[derive(Clone, Copy)]
pub struct Layout {
    pub u: usize,
    pub p: usize,
    pub d: usize,
    pub ghost low: { u < 2147483648 },
    pub ghost few: { p ≤ 1024 },
    pub ghost narrow: { d * p ≤ 8192 },
}

impl Layout {
    // The right side.
    fn right_place(self) -> usize
        ensures { result ≡ right_place self.u self.p }
    {
        self.u + self.p
    }

    fn stack_place(self) -> usize
        ensures { result ≡ stack_place self.u self.p }
    {
        self.u + 2 * self.p
    }

    // The colour of a party, if it has one.
    fn colour_place(self, w: NodeIndex) -> usize
        ensures { result ≡ colour_place self.u self.p w.0 }
    {
        self.u + 3 * self.p + w.index()
    }

    // Is it refused?
    pub fn refused_place(self) -> usize
        ensures { result ≡ refused_place self.u self.p }
    {
        self.u + 4 * self.p
    }

    // The next party to start from.
    fn next_place(self) -> usize
        ensures { result ≡ next_place self.u self.p }
    {
        self.refused_place() + 1
    }

    fn stack_count(self) -> usize
        ensures { result ≡ stack_count self.u self.p }
    {
        self.refused_place() + 2
    }

    pub fn left_count(self) -> usize
        ensures { result ≡ left_count self.u self.p }
    {
        self.refused_place() + 3
    }

    fn right_count(self) -> usize
        ensures { result ≡ right_count self.u self.p }
    {
        self.refused_place() + 4
    }

    // The length of a party's row.
    fn row_count(self, w: NodeIndex) -> usize
        ensures { result ≡ row_count self.u self.p w.0 }
    {
        self.refused_place() + 5 + 2 * w.index()
    }

    // The word that says where a party's row lies.
    fn row_start(self, w: NodeIndex) -> usize
        ensures { result ≡ row_start self.u self.p w.0 }
    {
        self.row_count(w) + 1
    }

    // A party's row.
    fn row_place(self, w: NodeIndex) -> usize
        requires { w.0 < self.p }
        ensures { result ≡ row_place self.u self.p self.d w.0 }
    {
        self.u + 6 * self.p + 5 + self.d * w.index()
    }

    // Nothing is refused, party 0 is next, and the stack and both sides are empty.
    #[tactic(auto, unfolding(crate::specs::Model::clear_state_m))]
    fn clear_state(self, s: &mut [u32])
        ensures { s.new ≡ clear_state_m self.u self.p s.old }
    {
        words::put(s, self.refused_place(), 0);
        words::put(s, self.next_place(), 0);
        words::put(s, self.stack_count(), 0);
        words::put(s, self.left_count(), 0);
        words::put(s, self.right_count(), 0);
    }

    // A party without a colour and with an empty row.
    #[tactic(auto, unfolding(crate::specs::Model::start_party_m))]
    fn start_party(self, s: &mut [u32], w: NodeIndex)
        requires { w.0 < self.p }
        ensures { s.new ≡ start_party_m self.u self.p self.d w.0 s.old }
    {
        words::put(s, self.colour_place(w), NO_COLOUR);
        words::put(s, self.row_count(w), 0);
        words::put(s, self.row_start(w), self.row_place(w));
    }

    // All parties so.
    #[tactic(auto, unfolding(crate::specs::Model::start_parties_m))]
    fn start_parties(self, s: &mut [u32])
        ensures { s.new ≡ start_parties_m self.u self.p self.d self.p s.old }
    {
        for v in 0..self.p {
            self.start_party(s, NodeIndex::new(v));
        }
    }

    // The number `w` goes into the row of the party `v`.
    #[tactic(auto, unfolding(crate::specs::Model::push_end_m))]
    fn push_end(self, s: &mut [u32], v: NodeIndex, w: usize)
        requires { CanPush self.u self.p v.0 s.old }
        ensures { s.new ≡ push_end_m self.u self.p v.0 w s.old }
    {
        let row = word_at(s, self.row_start(v));
        append(s, self.row_count(v), row, w);
    }

    // Each appointment, from the newest down: its other end goes into the row of its end on the side `near`.
    fn fill_rows(self, s: &mut [u32], list: &[u16], near: Side)
        requires { CanFill self.u self.p list.now (offset_of near) (1 - offset_of near) (length list.now / 2) s.old }
        ensures { s.new ≡ fill_rows_m self.u self.p list.now (offset_of near) (1 - offset_of near) (length list.now / 2) s.old }
    {
        let own = near.offset();
        let other = 1 - own;
        for ends in list.as_chunks::<2>().0.iter().rev() {
            let v = NodeIndex::new(usize::from(ends[own]));
            self.push_end(s, v, usize::from(ends[other]));
        }
    }

    // A party gets its colour, goes on the stack and to the end of its side.
    #[tactic(auto, unfolding(crate::specs::Model::color_party_m))]
    fn color_party(self, s: &mut [u32], w: NodeIndex, color: usize)
        requires { CanColorParty self.u self.p w.0 color s.old }
        ensures { s.new ≡ color_party_m self.u self.p w.0 color s.old }
    {
        let v = w.index();
        set_word(s, self.colour_place(w), color);
        append(s, self.stack_count(), self.stack_place(), v);
        if color == 0 {
            append(s, self.left_count(), self.u, v);
            return;
        }
        append(s, self.right_count(), self.right_place(), v);
    }

    // A neighbour that is to have the colour `other`: nothing happens if it has, it gets it if it has none, and else it refuses.
    // Once it is refused nobody gets a colour.
    #[tactic(auto, unfolding(crate::specs::Model::touch_m))]
    fn touch(self, s: &mut [u32], other: usize, w: NodeIndex)
        requires { CanTouch self.u self.p other w.0 s.old }
        ensures { s.new ≡ touch_m self.u self.p other w.0 s.old }
    {
        let have = word_at(s, self.colour_place(w));
        if have == other {
            return;
        }
        if have != NO_COLOUR {
            words::put(s, self.refused_place(), 1);
            return;
        }
        let refused = words::get(s, self.refused_place());
        if refused == 0 {
            self.color_party(s, w, other);
        }
    }

    // The neighbour whose number stands at `at`.
    #[tactic(auto, unfolding(crate::specs::Model::look_m))]
    fn look(self, s: &mut [u32], other: usize, at: usize)
        requires { CanLook self.u self.p other at s.old }
        ensures { s.new ≡ look_m self.u self.p other at s.old }
    {
        let w = word_at(s, at);
        self.touch(s, other, NodeIndex::new(w));
    }

    // All neighbours of a party, in the order of its row.
    #[tactic(auto, unfolding(crate::specs::Model::touch_all_m, crate::specs::Model::looks_m))]
    fn touch_all(self, s: &mut [u32], w: NodeIndex)
        requires { CanLookAll self.u self.p w.0 s.old }
        ensures { s.new ≡ touch_all_m self.u self.p w.0 s.old }
    {
        let color = words::get(s, self.colour_place(w));
        let n = words::get(s, self.row_count(w));
        let row = words::get(s, self.row_start(w));
        let other = 1 - color % 2;
        for t in 0..n {
            self.look(s, other, row + t);
        }
    }

    // The last party on a stack of `h` comes off.
    #[tactic(auto, unfolding(crate::specs::Model::take_off_m))]
    fn take_off(self, s: &mut [u32], h: usize)
        requires h_nonzero { (0 < h) × (h < word_limit) }
        requires can_take_off { CanTakeOff self.u self.p h s.old }
        ensures { s.new ≡ take_off_m self.u self.p h s.old }
    {
        let v = words::get(s, self.stack_place() + (h - 1));
        words::put(s, self.stack_count(), h - 1);
        self.touch_all(s, NodeIndex::new(v));
    }

    // On to the next party, which gets 1 if it has no colour. After the last there is none, and nothing happens.
    #[tactic(auto, unfolding(crate::specs::Model::next_party_m))]
    fn next_party(self, s: &mut [u32])
        requires { CanGoOn self.u self.p s.old }
        ensures { s.new ≡ next_party_m self.u self.p s.old }
    {
        let v = words::get(s, self.next_place());
        if v >= self.p {
            return;
        }
        let w = NodeIndex::new(v);
        let have = words::get(s, self.colour_place(w));
        words::put(s, self.next_place(), v + 1);
        if have == NO_COLOUR {
            self.color_party(s, w, 1);
        }
    }

    // One step of the search: the last party comes off the stack, or with an empty stack it goes on to the next party. Once it is
    // refused nothing happens.
    #[tactic(auto, unfolding(crate::specs::Model::step_m))]
    fn step(self, s: &mut [u32])
        requires { CanStep self.u self.p s.old }
        ensures { s.new ≡ step_m self.u self.p s.old }
    {
        let refused = words::get(s, self.refused_place());
        if refused != 0 {
            return;
        }
        let h = words::get(s, self.stack_count());
        if h == 0 {
            self.next_party(s);
            return;
        }
        self.take_off(s, h);
    }

    // Each party is passed once and comes off once: 2·p steps suffice, and one after the end does nothing.
    #[tactic(auto, unfolding(crate::specs::Model::steps_m))]
    pub fn all_steps(self, s: &mut [u32])
        requires { CanStepAll self.u self.p (2 * self.p) s.old }
        ensures { s.new ≡ steps_m self.u self.p (2 * self.p) s.old }
    {
        for _ in 0..2 * self.p {
            self.step(s);
        }
    }

    // The words before the first step. In its row a party's appointments where it is first end come before those where it is
    // second end, each newest first: document 01's order of neighbours.
    #[tactic(auto, unfolding(crate::specs::Model::prepare_m))]
    pub fn prepare(self, s: &mut [u32], list: &[u16])
        requires { CanPrepare self.u self.p self.d list.now s.old }
        ensures { s.new ≡ prepare_m self.u self.p self.d list.now s.old }
    {
        self.clear_state(s);
        self.start_parties(s);
        self.fill_rows(s, list, Side::First);
        self.fill_rows(s, list, Side::Second);
    }
}
