// What a tracing answers by what its search has found, and the list of starts.
#![tactic(auto)]

ghost use Rattle.std.specs.Prelude.{◌≡◌, ◌≤◌, length};
ghost use Rattle.lists.specs.Slices.{overlaid};
ghost use Rattle.progress.specs.Starts.{kept};
ghost use Rattle.listing.specs.Answering.{refused_with, answer_with};

use answers::{Answer, Traced};
use progress::Progress;

// Refused before the search.
pub fn refused(number: u32) -> Traced
    ensures { result ≡ refused_with number }
{
    Traced {
        visited: 0,
        dropped: 0,
        answer: Answer::Refused { number },
    }
}

// What a search answers where the list has room for so many starts: where it has too little, how many there are.
#[tactic(auto, unfolding(answers::specs::Answers::traced_with))]
pub fn answer_for(p: Progress, room: usize) -> Traced
    ensures { result ≡ answer_with p.greatest p.paths p.visited p.dropped room }
{
    let answer = if room < p.paths as usize {
        Answer::NoPlace { paths: p.paths }
    } else {
        Answer::Found {
            straight: p.greatest.straight,
            diagonal: p.greatest.diagonal,
            paths: p.paths,
        }
    };
    Traced {
        visited: p.visited,
        dropped: p.dropped,
        answer,
    }
}

// Writes the starts that stand before an end to the list, the first first, as many as it has places for.
pub fn list_starts(found: &[u32], end: usize, paths: u32, starts: &mut [u32])
    requires { (paths ≤ end) × (end ≤ length found.now) }
    ensures { starts.new ≡ overlaid (kept found.now end paths) starts.old }
{
    let n = starts.len().min(paths as usize);
    for k in 0..n {
        starts[k] = found[end - 1 - k];
    }
}
