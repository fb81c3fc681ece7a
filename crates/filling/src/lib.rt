// Accumulation and subaccumulation by counted inflows, in no memory but the lent grid.
//
// While at work a place holds flag * 2^30 + waiting * 2^25 + partial. The flag is 1 at an outlet, `waiting` is how many
// inflows are not yet passed down, and `partial` is 1 and the sum of those that are. A cell is done that is passed
// down, or null and looked at. Some parameters serve the contracts alone: `outlets` in all that look and go down, since
// the flags tell the outlets, and `looked` and `done` of a step.
#![tactic(auto)]

ghost use Rattle.std.specs.Prelude.{◌+◌, ◌*◌, ◌≤◌, ◌<◌, length};
ghost use Rattle.lists.specs.Slices.{Kept, Within};
ghost use Rattle.moves.specs.Grids.{ground_of};
ghost use Rattle.filling.specs.Filling.{Flagged, Stripped, Looked, Down, Passed, Fills};
ghost use Rattle.filling.specs.Grids.{Fillable, FillableAt};

use cells::{Cell, split_number};
use counting::{INFLOW, count_all};
use downstream::{NumberedCell, downstream_of, offsets};
use lists::clear;
use moves::Grid;

// The flag of an outlet.
const FLAG: u32 = 1073741824;

// Flags the outlet at a place of the list, once: the cell that it flows to no longer waits for it.
fn flag_at(grid: Grid, outlets: &[u32], words: &mut [u32], place: usize)
    requires fillable { Fillable grid outlets.now words.old × (place < length outlets.now) }
    requires flagged { Flagged (ground_of grid) outlets.now words.old place }
    ensures flags { Flagged (ground_of grid.entry) outlets.now words.new (place + 1) }
    ensures keeps { Kept (grid.entry.rows * grid.entry.cols) words.old words.new }
{
    let outlet = outlets[place];
    let at = outlet as usize;
    if words[at] >= FLAG {
        return;
    }
    words[at] += FLAG;
    let steps = offsets(grid.cols);
    let cell = split_number(grid.cols, outlet);
    if let Some(below) = downstream_of(grid, &steps, NumberedCell { cell, at }) {
        words[below.at] -= INFLOW;
    }
}

// Flags the outlets in words that are counted.
fn flag(grid: Grid, outlets: &[u32], words: &mut [u32])
    requires fillable { Fillable grid outlets.now words.old }
    requires flagged { Flagged (ground_of grid) outlets.now words.old 0 }
    ensures flags { Flagged (ground_of grid.entry) outlets.now words.new (length outlets.now) }
    ensures keeps { Kept (grid.entry.rows * grid.entry.cols) words.old words.new }
{
    for j in 0..outlets.len() {
        flag_at(grid, outlets, words, j);
    }
}

// Passes a cell that waits for nothing down to the cell that it flows to, and tells where the way goes on.
fn pass_down(
    grid: Grid,
    outlets: &[u32],
    steps: &[usize; 8],
    words: &mut [u32],
    here: NumberedCell,
    looked: usize,
    done: u32,
) -> Option<NumberedCell>
    requires fillable_at { FillableAt grid outlets.now steps.now words.old here }
    requires down { Down (ground_of grid) outlets.now words.old looked here.at done }
    ensures { Passed (ground_of grid.entry) outlets.now looked (done + 1) words.old words.new result }
{
    let word = words[here.at];
    if word >= FLAG {
        return None;
    }
    let below = downstream_of(grid, steps, here)?;
    let sum = words[below.at] + word - INFLOW;
    words[below.at] = sum;
    if sum % FLAG >= INFLOW {
        return None;
    }
    Some(below)
}

// The way down from a headwater. It hands back how many cells are done.
fn walk_down(
    grid: Grid,
    outlets: &[u32],
    steps: &[usize; 8],
    words: &mut [u32],
    here: NumberedCell,
    mut done: u32,
) -> u32
    requires fillable_at { FillableAt grid outlets.now steps.now words.old here }
    requires down { Down (ground_of grid) outlets.now words.old (here.at + 1) here.at done }
    ensures looks { Looked (ground_of grid.entry) outlets.now words.new (here.at + 1) result }
    ensures keeps { Kept (grid.entry.rows * grid.entry.cols) words.old words.new }
{
    let looked = here.at + 1;
    let mut next = Some(here);
    while let Some(down) = next {
        next = pass_down(grid, outlets, steps, words, down, looked, done);
        done += 1;
    }
    done
}

// Looks at a cell, and goes down from it if it is a headwater. It hands back how many cells are done.
fn look_at(
    grid: Grid,
    outlets: &[u32],
    steps: &[usize; 8],
    words: &mut [u32],
    here: NumberedCell,
    done: u32,
) -> u32
    requires fillable_at { FillableAt grid outlets.now steps.now words.old here }
    requires looked { Looked (ground_of grid) outlets.now words.old here.at done }
    ensures looks { Looked (ground_of grid.entry) outlets.now words.new (here.at + 1) result }
    ensures keeps { Kept (grid.entry.rows * grid.entry.cols) words.old words.new }
{
    let word = words[here.at];
    if word == 0 {
        return done + 1;
    }
    if word % FLAG == 1 {
        return walk_down(grid, outlets, steps, words, here, done);
    }
    done
}

// Looks at every cell. It hands back how many are done.
fn look_at_all(grid: Grid, outlets: &[u32], words: &mut [u32]) -> u32
    requires fillable { Fillable grid outlets.now words.old }
    requires looked { Looked (ground_of grid) outlets.now words.old 0 0 }
    ensures looks { Looked (ground_of grid.entry) outlets.now words.new (grid.entry.rows * grid.entry.cols) result }
    ensures keeps { Kept (grid.entry.rows * grid.entry.cols) words.old words.new }
{
    let steps = offsets(grid.cols);
    let mut done = 0;
    let mut cell = Cell { row: 0, col: 0 };
    for at in 0..grid.rows * grid.cols {
        done = look_at(
            grid,
            outlets,
            &steps,
            words,
            NumberedCell { cell, at },
            done,
        );
        cell = cell.next(grid.cols);
    }
    done
}

// Takes the flags of the outlets away.
fn strip(n: usize, outlets: &[u32], words: &mut [u32])
    requires { (n ≤ length words.old) × Within n outlets.now }
    ensures { Stripped n outlets.now (length outlets.now) words.old
        words.new }
{
    for outlet in outlets {
        words[*outlet as usize] %= FLAG;
    }
}

// Fills the first rows * cols places of a lent grid with the subaccumulation, which is the accumulation where there
// are no outlets. Where a ring has no outlet on it, it clears these places and says false.
pub fn fill(grid: Grid, outlets: &[u32], subaccumulation: &mut [u32]) -> bool
    requires { Fillable grid outlets.now subaccumulation.old }
    ensures { Fills (ground_of grid.entry) outlets.now subaccumulation.old result subaccumulation.new }
{
    let n = grid.rows * grid.cols;
    count_all(grid, subaccumulation);
    flag(grid, outlets, subaccumulation);
    let done = look_at_all(grid, outlets, subaccumulation);
    if done as usize != n {
        clear(n, subaccumulation);
        return false;
    }
    strip(n, outlets, subaccumulation);
    true
}
