// The copies of a graph's entries.
ghost use Rattle.std.specs.Prelude.{◌≡◌, ◌+◌, ◌*◌, ◌<◌, ◌≤◌, length};
ghost use Rattle.words.specs.Words.{word_limit};
ghost use Rattle.circuits.specs.Model.{few_sum_m};

use words::word_at;

// The copies of all m entries of the graph at g, or none if there are more entries than parties.
#[tactic(auto, unfolding(crate::specs::Model::copies_sum_m))]
pub fn copies_sum(s: &[u32], g: usize, m: usize, parties: usize) -> Option<usize>
    requires { (parties < word_limit) × (g + 3 + 2 * m ≤ length s.now) }
    ensures { result ≡ few_sum_m g m parties s.now }
{
    if parties < m {
        return None;
    }
    let mut sum = 0;
    for i in 0..m {
        sum += word_at(s, g + 3 + 2 * i);
    }
    Some(sum)
}
