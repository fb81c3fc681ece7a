// Steps over the ground: the step of each code, the cell that a cell flows to, the walk, and the neighbours that flow
// in.
#![tactic(auto)]

ghost use Rattle.std.specs.Prelude.{◌≡◌, ◌<◌};
ghost use Rattle.moves.specs.Grids.{On, number_in, ground_of, code_at, FlowsIn, OnGrid, WalkedOn};
ghost use Rattle.moves.specs.Moves.{by_move, lead_of, LeadsBy, step_by, InReach, Spotted};
ghost use Rattle.moves.specs.Moves.{dir_at, near_by, neighbour_of};
ghost use Rattle.moves.specs.Walks.{FlowsTo};

use cells::Cell;
pub use grid::Grid;
use lengths::{Length, Step};

mod grid;

// A step: the change of row and of column, each plus one so that no number is negative, and whether it is straight or
// diagonal.
#[derive(Clone, Copy)]
pub struct Move {
    pub row: usize,
    pub col: usize,
    pub step: Step,
}

fn by(row: usize, col: usize, step: Step) -> Option<Move>
    ensures { result ≡ by_move row col step }
{
    Some(Move { row, col, step })
}

// The step of a code. A null cell and a pond lead nowhere, as does a byte that is no code.
#[tactic(auto, unfolding(crate::specs::Moves::lead_of, ground::specs::Tables::dir_of))]
pub fn lead_of(code: u8) -> Option<Move>
    ensures { result ≡ lead_of code }
{
    match code {
        0 => None,
        1 => by(1, 2, Step::Straight),
        2 => by(2, 2, Step::Diagonal),
        4 => by(2, 1, Step::Straight),
        8 => by(2, 0, Step::Diagonal),
        16 => by(1, 0, Step::Straight),
        32 => by(0, 0, Step::Diagonal),
        64 => by(0, 1, Step::Straight),
        128 => by(0, 2, Step::Diagonal),
        255 => None,
        _ => None,
    }
}

// The step down from a cell of this code; straight where the code leads nowhere.
pub fn step_of(code: u8) -> Step
    ensures { result ≡ step_by (lead_of code) }
{
    match lead_of(code) {
        Some(m) => m.step,
        None => Step::Straight,
    }
}

// The cell that a change of row and of column, each plus one, leads to. Row and column are tested apart, so that no
// step wraps around a border. They are compared with 1: by `checked_sub` the compiler would not unroll the loops over the
// eight neighbours.
pub fn spot_at(rows: usize, cols: usize, cell: Cell, down: usize, right: usize) -> Option<Cell>
    requires { InReach rows cols cell.row cell.col down right }
    ensures { Spotted rows cols cell.row cell.col down right result }
{
    if cell.row + down < 1 || cell.col + right < 1 {
        return None;
    }
    let row = cell.row + down - 1;
    let col = cell.col + right - 1;
    if rows <= row || cols <= col {
        return None;
    }
    Some(Cell { row, col })
}

// The cell that a cell flows to by the step of its code: none off the grid, and none where that cell is null.
fn flows_by(grid: Grid, cell: Cell, by: Move) -> Option<Cell>
    requires on_cell { On grid cell }
    requires leads_by { LeadsBy (code_at grid cell) by }
    ensures { FlowsTo (ground_of grid.entry) (number_in grid.entry cell) result }
{
    let to = spot_at(grid.rows, grid.cols, cell, by.row, by.col)?;
    if grid.codes[to.row * grid.cols + to.col] == 0 {
        return None;
    }
    Some(to)
}

// A walk: the cell where it is, and the length that it has come.
#[derive(Clone, Copy)]
pub struct Walk {
    pub cell: Cell,
    pub length: Length,
}

impl Walk {
    // One step on. At its end the walk stays as it is.
    pub fn step(self, grid: Grid) -> Walk
        requires { OnGrid grid self }
        ensures { WalkedOn grid.entry self result }
    {
        let at = self.cell.row * grid.cols + self.cell.col;
        let Some(m) = lead_of(grid.codes[at]) else {
            return self;
        };
        let Some(cell) = flows_by(grid, self.cell, m) else {
            return self;
        };
        Walk {
            cell,
            length: self.length.plus(m.step),
        }
    }
}

// A neighbour: the change of row and of column, each plus one, and the code that points back at the cell. One type with
// Move, generic in what is carried, would be no plainer: its last field would have no name that fits a step and a code.
#[derive(Clone, Copy)]
pub struct Neighbour {
    pub row: usize,
    pub col: usize,
    pub back: u8,
}

fn near(row: usize, col: usize, back: u8) -> Neighbour
    ensures { result ≡ near_by row col back }
{
    Neighbour { row, col, back }
}

// The neighbours in order: E, SE, S, SW, W, NW, N, NE.
pub fn neighbour_at(k: usize) -> Neighbour
    ensures { result ≡ neighbour_of (dir_at k) }
{
    match k {
        0 => near(1, 2, 16),
        1 => near(2, 2, 32),
        2 => near(2, 1, 64),
        3 => near(2, 0, 128),
        4 => near(1, 0, 1),
        5 => near(0, 0, 2),
        6 => near(0, 1, 4),
        _ => near(0, 2, 8),
    }
}

// Neighbour k of a cell, if it is on the grid and flows in.
pub fn inflow_from(grid: Grid, cell: Cell, k: usize) -> Option<Cell>
    requires { On grid cell }
    ensures { FlowsIn grid.entry cell k result }
{
    let n = neighbour_at(k);
    let beside = spot_at(grid.rows, grid.cols, cell, n.row, n.col)?;
    if grid.codes[beside.row * grid.cols + beside.col] != n.back {
        return None;
    }
    Some(beside)
}
