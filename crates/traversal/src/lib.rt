// Through subwatersheds without a stack: up to one tributary after another, and when none is left down by the code, to
// the tributary after the one that one came from. The marks tell where not to go.
#![tactic(auto)]

ghost use Rattle.std.specs.Prelude.{◌≡◌, ◌*◌, ◌<◌, ◌≤◌, length};
ghost use Rattle.moves.specs.Grids.{On, number_in, ground_of};
ghost use Rattle.traversal.specs.Turns.{turns_to, NextTurn, HasNeighbour, HasNext};
ghost use Rattle.traversal.specs.Grids.{OnPosition, Turning, InnerTurning, MovedTo, WentDown};

use cells::Cell;
use downstream::place_of;
use moves::{Grid, inflow_from, neighbour_at};

// A cell with this in its mark is not entered from below.
pub const MARK: u32 = 2147483648;

// A cell with its number, and the first of its neighbours that are still to be turned to.
#[derive(Clone, Copy)]
pub struct Position {
    pub cell: Cell,
    pub at: usize,
    pub turn: usize,
}

// Is neighbour k of an inner cell still to be turned to? No border is tested.
fn turns_inside(grid: Grid, offsets: &[usize; 8], marks: &[u32], p: Position, k: usize) -> bool
    requires inner { InnerTurning grid offsets.now marks.now p }
    requires k_bound { k < 8 }
    ensures { result ≡ turns_to (ground_of grid.entry) marks.now p.at k }
{
    let y = p.at + offsets[k] - (grid.cols + 1);
    grid.codes[y] == neighbour_at(k).back && marks[y] < MARK
}

// Is neighbour k of any cell?
fn turns_anywhere(grid: Grid, marks: &[u32], p: Position, k: usize) -> bool
    requires on_cell { On grid p.cell × (p.at ≡ number_in grid p.cell) }
    requires has_marks { grid.rows * grid.cols ≤ length marks.now }
    ensures { result ≡ turns_to (ground_of grid.entry) marks.now p.at k }
{
    match inflow_from(grid, p.cell, k) {
        Some(from) => marks[from.row * grid.cols + from.col] < MARK,
        None => false,
    }
}

// The first neighbour that is still to be turned to, flows in and has no mark.
pub fn next_turn(grid: Grid, offsets: &[usize; 8], marks: &[u32], p: Position) -> Option<usize>
    requires { Turning grid offsets.now marks.now p }
    ensures { NextTurn (ground_of grid.entry) marks.now p.at p.turn result }
{
    let cell = p.cell;
    if 1 <= cell.row && cell.row + 1 < grid.rows && 1 <= cell.col && cell.col + 1 < grid.cols {
        return (p.turn..8).find(|k| turns_inside(grid, offsets, marks, p, *k));
    }
    (p.turn..8).find(|k| turns_anywhere(grid, marks, p, *k))
}

// The position at neighbour k.
pub fn moved(grid: Grid, offsets: &[usize; 8], p: Position, k: usize, turn: usize) -> Position
    requires on_position { OnPosition grid offsets.now p }
    requires k_bound { (k < 8) × HasNeighbour (ground_of grid) p.at k }
    ensures { MovedTo grid.entry offsets.now p k turn result }
{
    let n = neighbour_at(k);
    let row = p.cell.row + n.row - 1;
    let col = p.cell.col + n.col - 1;
    let at = p.at + offsets[k] - (grid.cols + 1);
    Position {
        cell: Cell { row, col },
        at,
        turn,
    }
}

// The position at the cell below, after the neighbour that one came from.
pub fn below(grid: Grid, offsets: &[usize; 8], p: Position) -> Position
    requires on_position { OnPosition grid offsets.now p }
    requires has_next { HasNext (ground_of grid) p.at }
    ensures { WentDown grid.entry offsets.now p result }
{
    let k = place_of(grid.codes[p.at]);
    let turn = (k + 4) % 8 + 1;
    moved(grid, offsets, p, k, turn)
}
