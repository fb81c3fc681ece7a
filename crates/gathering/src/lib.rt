// The cells of a subwatershed, listed from the outlet on and noted as inside. The notes of the outlets keep it from
// going beyond an upper one; the list of outlets itself is named for the contracts' sake.
#![tactic(auto)]

ghost use Rattle.std.specs.Prelude.{[], ◌∷◌, ◌≤◌, ◌<◌, length};
ghost use Rattle.ground.specs.Compass.{dirs};
ghost use Rattle.moves.specs.Moves.{dir_at};
ghost use Rattle.moves.specs.Grids.{ground_of, number_in};
ghost use Rattle.gathering.specs.Gathering.{tributaries, NewestFirst};
ghost use Rattle.gathering.specs.Grids.{CanFollow, ListsFrom, CanGather, Gathers};

use cells::Cell;
use moves::{Grid, inflow_from};
use notes::{INSIDE, OUTLET};

// Neighbour k of a cell, if it flows in and is no outlet, is entered and follows n others in the list.
fn list_inflow(
    grid: Grid,
    outlets: &[u32],
    cell: Cell,
    k: usize,
    n: usize,
    words: &mut [u32],
    list: &mut [u32],
) -> usize
    requires { CanFollow grid outlets.now cell n words.old list.old
        (length (tributaries (ground_of grid) outlets.now (number_in grid cell) (dir_at k ∷ []))) }
    ensures { ListsFrom grid.entry outlets.now cell (dir_at k ∷ []) n words.old list.old result
        words.new list.new }
{
    let Some(from) = inflow_from(grid, cell, k) else {
        return n;
    };
    let at = from.row * grid.cols + from.col;
    let word = words[at];
    if word / OUTLET % 2 == 1 {
        return n;
    }
    words[at] = word % INSIDE + INSIDE;
    list[n] = (from.row * 4096 + from.col) as u32;
    n + 1
}

// The same for all neighbours.
fn list_inflows(
    grid: Grid,
    outlets: &[u32],
    cell: Cell,
    n: usize,
    words: &mut [u32],
    list: &mut [u32],
) -> usize
    requires { CanFollow grid outlets.now cell n words.old list.old
        (length (tributaries (ground_of grid) outlets.now (number_in grid cell) dirs)) }
    ensures { ListsFrom grid.entry outlets.now cell dirs n words.old list.old result
        words.new list.new }
{
    let mut end = n;
    for k in 0..8 {
        end = list_inflow(grid, outlets, cell, k, end, words, list);
    }
    end
}

// The last of n listed numbers changes places with number k, and is answered: of the cells still to be followed the
// newest comes first, which lies near the one before it.
#[tactic(auto, unfolding(crate::specs::Gathering::exchanged))]
fn newest_first(k: usize, n: usize, list: &mut [u32]) -> usize
    requires { (k < n) × (n ≤ length list.old) }
    ensures { NewestFirst k n list.old result list.new }
{
    list.swap(n - 1, k);
    list[k] as usize
}

// Lists the cells of the subwatershed of an outlet in the first places of a list, and notes each as inside. It answers
// how many there are.
pub fn gather(grid: Grid, outlets: &[u32], cell: Cell, words: &mut [u32], list: &mut [u32]) -> usize
    requires { CanGather grid outlets.now cell words.old list.old }
    ensures { Gathers grid.entry outlets.now (number_in grid.entry cell) words.old list.old result
        words.new list.new }
{
    let at = cell.row * grid.cols + cell.col;
    words[at] = words[at] % INSIDE + INSIDE;
    list[0] = (cell.row * 4096 + cell.col) as u32;
    let mut n = 1;
    let mut k = 0;
    // No for: the number of listed cells grows meanwhile.
    while k < n {
        let number = newest_first(k, n, list);
        let next = Cell {
            row: number / 4096,
            col: number % 4096,
        };
        n = list_inflows(grid, outlets, next, n, words, list);
        k += 1;
    }
    n
}
