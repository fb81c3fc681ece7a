// What the search turns to from a cell: the neighbours that flow in and are no outlets, and the steps into them.
#![tactic(auto)]

ghost use Rattle.std.specs.Prelude.{◌≡◌, true, ◌<◌};
ghost use Rattle.ground.specs.Compass.{opposite, step_of};
ghost use Rattle.moves.specs.Moves.{dir_at};
ghost use Rattle.moves.specs.Grids.{On, FlowsIn};
ghost use Rattle.inflows.specs.Values.{Inner};
ghost use Rattle.inflows.specs.Grids.{InnerOn};
ghost use Rattle.upstream.specs.Turns.{SaidInner};
ghost use Rattle.upstream.specs.Grids.{TurnsTo};

use cells::Cell;
pub use filled::FilledGrid;
use lengths::Step;
use lists::is_among;
use moves::{Grid, inflow_from, neighbour_at};

mod filled;

// Is this a cell of which all eight neighbours are on the grid?
pub fn is_inner(rows: usize, cols: usize, cell: Cell) -> bool
    requires { (cell.row < rows) × (cell.col < cols) }
    ensures { SaidInner result rows cols cell.row cell.col × (Inner rows cols cell.row cell.col → result ≡ true) }
{
    1 <= cell.row && cell.row + 1 < rows && 1 <= cell.col && cell.col + 1 < cols
}

// Neighbour k of an inner cell, if it flows in. No border is tested.
fn inner_inflow(grid: Grid, cell: Cell, k: usize) -> Option<Cell>
    requires { InnerOn grid cell }
    ensures { FlowsIn grid.entry cell k result }
{
    let n = neighbour_at(k);
    let row = cell.row + n.row - 1;
    let col = cell.col + n.col - 1;
    if grid.codes[row * grid.cols + col] != n.back {
        return None;
    }
    Some(Cell { row, col })
}

// Neighbour k of a cell that may be known as an inner one, if it flows in.
fn inflow(inner: bool, grid: Grid, cell: Cell, k: usize) -> Option<Cell>
    requires { On grid cell × SaidInner inner grid.rows grid.cols cell.row cell.col }
    ensures { FlowsIn grid.entry cell k result }
{
    if inner {
        return inner_inflow(grid, cell, k);
    }
    inflow_from(grid, cell, k)
}

// Neighbour k of a cell that may be known as an inner one, if it flows in and is no outlet.
pub fn tributary(inner: bool, grid: Grid, outlets: &[u32], cell: Cell, k: usize) -> Option<Cell>
    requires { On grid cell × SaidInner inner grid.rows grid.cols cell.row cell.col }
    ensures { TurnsTo grid.entry outlets.now cell k result }
{
    let from = inflow(inner, grid, cell, k)?;
    if is_among(outlets, 0, from.row * grid.cols + from.col) {
        return None;
    }
    Some(from)
}

// The step of neighbour k down to the cell: straight and diagonal by turns, from the east on.
pub fn step_at(k: usize) -> Step
    ensures { result ≡ step_of (opposite (dir_at k)) }
{
    match k {
        0 | 2 | 4 | 6 => Step::Straight,
        _ => Step::Diagonal,
    }
}
