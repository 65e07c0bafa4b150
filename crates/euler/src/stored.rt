// A graph as it lies in words, of which a split is made.
ghost use Rattle.std.specs.Prelude.{◌≡◌, ◌+◌, ◌*◌, ◌<◌, length};
ghost use Rattle.words.specs.Words.{word, word_limit};

use words::word_at;

// The graph at g, of m entries on so many parties, and the table of ends. Each is small enough that sums of them are numbers.
#[derive(Clone, Copy)]
pub struct StoredGraph {
    pub g: usize,
    pub m: usize,
    pub parties: usize,
    pub ends: usize,
    pub ghost graph_small: { g < word_limit },
    pub ghost entries_few: { m < word_limit },
    pub ghost parties_few: { parties < word_limit },
    pub ghost ends_small: { ends < word_limit },
}

impl StoredGraph {
    // The number of the pair of entry i.
    pub fn number(self, s: &[u32], i: usize) -> usize
        requires { self.g + 2 + 2 * i < length s.now }
        ensures { (result ≡ word s.now (self.g + 2 + 2 * i)) × (result < word_limit) }
    {
        word_at(s, self.g + 2 + 2 * i)
    }

    // The copies of entry i.
    pub fn copies(self, s: &[u32], i: usize) -> usize
        requires { self.g + 3 + 2 * i < length s.now }
        ensures { (result ≡ word s.now (self.g + 3 + 2 * i)) × (result < word_limit) }
    {
        word_at(s, self.g + 3 + 2 * i)
    }
}

// A graph at g, on n parties a side: regular of degree d, or with at most d pairs at a party.
#[derive(Clone, Copy)]
pub struct RegularGraph {
    pub g: usize,
    pub n: usize,
    pub d: usize,
}
