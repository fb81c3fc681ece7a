// The two passes over the outlets of a list, in a grid that is ready for their searches: the first counts, the second
// lists.
#![tactic(auto)]

ghost use Rattle.std.specs.Prelude.{◌≤◌, ◌^◌, length};
ghost use Rattle.lists.specs.Lists.{sum_of};
ghost use Rattle.passes.specs.Grids.{path_counts, Searchable, CountsAll, ListsAll};

use tracing::{list_at, search_at};
use upstream::FilledGrid;

// The longest paths, the cells visited and the cells dropped, over the outlets searched.
#[derive(Clone, Copy)]
pub struct Sums {
    pub paths: u32,
    pub visited: u32,
    pub dropped: u32,
}

// Searches each outlet, and adds up what it finds.
pub fn count_all(filled: FilledGrid, edition: u32, work: &mut [u32]) -> Sums
    requires { Searchable edition filled work.old }
    ensures { CountsAll edition filled.entry work.old result work.new }
{
    let mut s = Sums {
        paths: 0,
        visited: 0,
        dropped: 0,
    };
    for place in 0..filled.outlets.len() {
        let p = search_at(filled, edition, true, place, work);
        s = Sums {
            paths: s.paths + p.paths,
            visited: s.visited + p.visited,
            dropped: s.dropped + p.dropped,
        };
    }
    s
}

// Searches each outlet once more, and writes its starts after those before it, and their count.
pub fn list_all(
    filled: FilledGrid,
    edition: u32,
    starts: &mut [u32],
    counts: &mut [u32],
    work: &mut [u32],
)
    requires searchable { Searchable edition filled work.old }
    requires outlets_in_bounds { (sum_of (path_counts edition filled) ≤ length starts.old)
        × (sum_of (path_counts edition filled) ≤ 2 ^ 24) × (length filled.outlets.now ≤ length counts.old) }
    ensures { ListsAll edition filled.entry starts.old counts.old work.old starts.new counts.new work.new }
{
    let mut total = 0;
    for j in 0..filled.outlets.len() {
        let from = total as usize;
        let p = list_at(filled, edition, true, j, &mut starts[from..], work);
        counts[j] = p.paths;
        total += p.paths;
    }
}
