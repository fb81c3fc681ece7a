// The measure of a walk: how many cells it has from a start to its first outlet, if that is the outlet asked for.
#![tactic(auto)]

ghost use Rattle.std.specs.Prelude.{◌≡◌, true, ◌+◌, ◌<◌, length, get_or};
ghost use Rattle.lists.specs.Lists.{member};
ghost use Rattle.ground.specs.Grid.{ground};
ghost use Rattle.moves.specs.Grids.{ground_of};
ghost use Rattle.flowpath.specs.Measuring.{OutletsIn, NoneBetween, MarkedAt, path_length};
ghost use Rattle.flowpath.specs.Grids.{Surveyed};
ghost use Rattle.flowpath.specs.Cells.{BeginsAt};

use cells::split_number;
use checks::is_placed;
use lengths::Length;
use lists::is_among;
use moves::{Grid, Walk};

// The walk that begins at a cell.
pub fn walk_from(cols: usize, start: u32) -> Walk
    requires { 0 < cols }
    ensures { BeginsAt cols start result }
{
    Walk {
        cell: split_number(cols, start),
        length: Length::none(),
    }
}

// The least accumulation of an outlet above a value.
fn least_above(accumulation: &[u32], outlets: &[u32], value: u32) -> u32
    requires { OutletsIn accumulation.now outlets.now }
    ensures { NoneBetween (length outlets.now) accumulation.now outlets.now
        (value + 1) result }
{
    let mut least = u32::MAX;
    for &outlet in outlets {
        let other = accumulation[outlet as usize];
        if value < other {
            least = least.min(other);
        }
    }
    least
}

// The mark after a cell of the walk: the walk comes to no outlet before its accumulation comes up to the mark.
fn mark_after(accumulation: &[u32], outlets: &[u32], cell: usize, mark: u32) -> u32
    requires outlets_in { OutletsIn accumulation.now outlets.now }
    requires marked_at { MarkedAt accumulation.now outlets.now cell mark }
    ensures { NoneBetween (length outlets.now) accumulation.now outlets.now
        (get_or accumulation.now cell 0 + 1) result }
{
    let value = accumulation[cell];
    if value < mark {
        return mark;
    }
    least_above(accumulation, outlets, value)
}

// Is a cell of the walk an outlet? The list is looked through only where the accumulation has come up to the mark.
fn meets_outlet(accumulation: &[u32], outlets: &[u32], cell: usize, mark: u32) -> bool
    requires { MarkedAt accumulation.now outlets.now cell mark }
    ensures { result ≡ member cell outlets.now }
{
    mark <= accumulation[cell] && is_among(outlets, 0, cell)
}

// Follows the walk from a cell of ground to its first outlet: how many cells it has, if that is the outlet asked for.
fn follow(
    grid: Grid,
    accumulation: &[u32],
    outlets: &[u32],
    outlet: u32,
    start: u32,
) -> Option<usize>
    requires surveyed { Surveyed grid accumulation.now outlets.now }
    requires start_value { ground (ground_of grid) start ≡ true }
    ensures { result ≡ path_length (ground_of grid.entry) outlets.now outlet start }
{
    let mut walk = walk_from(grid.cols, start);
    let mut cell = start as usize;
    let mut mark: u32 = 0;
    loop {
        if meets_outlet(accumulation, outlets, cell, mark) {
            if cell != outlet as usize {
                return None;
            }
            let steps = walk.length.straight + walk.length.diagonal;
            return Some(steps as usize + 1);
        }
        mark = mark_after(accumulation, outlets, cell, mark);
        walk = walk.step(grid);
        let to = walk.cell.row * grid.cols + walk.cell.col;
        if to == cell {
            return None;
        }
        cell = to;
    }
}

// The number of cells of the path from any start; none where the start is beyond the grid, null, or not the outlet's own.
pub fn path_length(
    grid: Grid,
    accumulation: &[u32],
    outlets: &[u32],
    outlet: u32,
    start: u32,
) -> Option<usize>
    requires { Surveyed grid accumulation.now outlets.now }
    ensures { result ≡ path_length (ground_of grid.entry) outlets.now outlet start }
{
    if !is_placed(grid, start) {
        return None;
    }
    follow(grid, accumulation, outlets, outlet, start)
}
