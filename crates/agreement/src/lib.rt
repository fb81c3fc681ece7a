// Check 14: does an accumulation fulfil its equation at every cell? Sums of inflows are compared in 64 bits, since the
// lent numbers may be any.
#![tactic(auto)]

ghost use Rattle.std.specs.Prelude.{◌≡◌, ◌-◌};
ghost use Rattle.ground.specs.Accumulation.{agrees};
ghost use Rattle.moves.specs.Grids.{ground_of, number_in};
ghost use Rattle.inflows.specs.Grids.{HasCell, InnerCell};
ghost use Rattle.agreement.specs.Equation.{agrees_at, AgreesAlong};
ghost use Rattle.agreement.specs.Grids.{Lent, LentRow, InnerRow};

use cells::Cell;
use inflows::{inflows_of, inner_inflows};
use moves::Grid;

// Does it at a cell?
#[tactic(auto, using(crate::proofs::Cells::inside))]
fn agrees_at(grid: Grid, accumulation: &[u32], cell: Cell) -> bool
    requires { HasCell grid accumulation.now cell }
    ensures { result
        ≡ agrees_at (ground_of grid.entry) accumulation.now (number_in grid.entry cell) }
{
    let at = cell.row * grid.cols + cell.col;
    let value = u64::from(accumulation[at]);
    if grid.codes[at] == 0 {
        return value == 0;
    }
    let sum = inflows_of(grid, accumulation, cell).sum();
    value == sum + 1
}

// Does it at an inner cell? All is loaded before the code is looked at, so that no branch is left.
#[tactic(auto, using(crate::proofs::Cells::inside))]
fn agrees_inside(grid: Grid, accumulation: &[u32], cell: Cell) -> bool
    requires { InnerCell grid accumulation.now cell }
    ensures { result
        ≡ agrees_at (ground_of grid.entry) accumulation.now (number_in grid.entry cell) }
{
    let at = cell.row * grid.cols + cell.col;
    let value = u64::from(accumulation[at]);
    let sum = inner_inflows(grid, accumulation, cell).sum();
    let due = if grid.codes[at] == 0 { 0 } else { sum + 1 };
    value == due
}

// Does it at every inner cell of a row that is neither the first nor the last? No cell ends the loop, so that several
// can be looked at at once.
fn inside_agrees(grid: Grid, accumulation: &[u32], row: usize) -> bool
    requires { InnerRow grid accumulation.now row }
    ensures { AgreesAlong (ground_of grid.entry) accumulation.now row 1 (grid.entry.cols - 1) result }
{
    let mut agreed = true;
    for col in 1..grid.cols - 1 {
        agreed &= agrees_inside(grid, accumulation, Cell { row, col });
    }
    agreed
}

// Does it between the first and the last column of any row?
fn edge_agrees(grid: Grid, accumulation: &[u32], row: usize) -> bool
    requires { LentRow grid accumulation.now row }
    ensures { AgreesAlong (ground_of grid.entry) accumulation.now row 1 (grid.entry.cols - 1) result }
{
    for col in 1..grid.cols - 1 {
        if !agrees_at(grid, accumulation, Cell { row, col }) {
            return false;
        }
    }
    true
}

// Does it at every cell of a row? The first and the last column are on the border; the cells between are inner cells
// unless the row is the first or the last.
fn row_agrees(grid: Grid, accumulation: &[u32], row: usize) -> bool
    requires { LentRow grid accumulation.now row }
    ensures { AgreesAlong (ground_of grid.entry) accumulation.now row 0 grid.entry.cols result }
{
    let first = Cell { row, col: 0 };
    let last = Cell {
        row,
        col: grid.cols - 1,
    };
    if !agrees_at(grid, accumulation, first) || !agrees_at(grid, accumulation, last) {
        return false;
    }
    if 0 < row && row + 1 < grid.rows {
        inside_agrees(grid, accumulation, row)
    } else {
        edge_agrees(grid, accumulation, row)
    }
}

// Does it at every cell?
pub fn agrees_all(grid: Grid, accumulation: &[u32]) -> bool
    requires { Lent grid accumulation.now }
    ensures { result ≡ agrees (ground_of grid.entry) accumulation.now }
{
    for row in 0..grid.rows {
        if !row_agrees(grid, accumulation, row) {
            return false;
        }
    }
    true
}
