// The cell that a cell flows to, by its number: a step adds an offset to the number, and multiplies nothing.
#![tactic(auto)]

ghost use Rattle.std.specs.Prelude.{◌≡◌, ◌+◌, ◌≤◌};
ghost use Rattle.ground.specs.Tables.{table1, dir_of};
ghost use Rattle.moves.specs.Grids.{ground_of};
ghost use Rattle.downstream.specs.Offsets.{place_by, offsets_of};
ghost use Rattle.downstream.specs.Flowing.{FlowsOn};
ghost use Rattle.downstream.specs.Grids.{Numbered};

use cells::Cell;
use moves::{Grid, lead_of, spot_at};

// A cell with its number.
#[derive(Clone, Copy)]
pub struct NumberedCell {
    pub cell: Cell,
    pub at: usize,
}

// The place of a code's direction in the order of the neighbours; the last where the code has none.
#[tactic(auto, unfolding(ground::specs::Tables::dir_of))]
pub fn place_of(code: u8) -> usize
    ensures { result ≡ place_by (dir_of table1 code) }
{
    match code {
        1 => 0,
        2 => 1,
        4 => 2,
        8 => 3,
        16 => 4,
        32 => 5,
        64 => 6,
        _ => 7,
    }
}

// What a step in each direction adds to a cell's number, in the order of the neighbours; each plus cols + 1, so that
// no number is negative.
pub fn offsets(cols: usize) -> [usize; 8]
    requires { cols ≤ 4096 }
    ensures { result ≡ offsets_of cols }
{
    let two = cols + cols;
    [cols + 2, two + 2, two + 1, two, cols, 0, 1, 2]
}

// The cell that a cell flows to. A walk ends where the code leads nowhere, off the grid or to a null cell.
pub fn downstream_of(grid: Grid, offsets: &[usize; 8], here: NumberedCell) -> Option<NumberedCell>
    requires { Numbered grid offsets.now here }
    ensures { FlowsOn (ground_of grid.entry) here.at result }
{
    let code = grid.codes[here.at];
    let m = lead_of(code)?;
    let cell = spot_at(grid.rows, grid.cols, here.cell, m.row, m.col)?;
    let to = here.at + offsets[place_of(code)] - (grid.cols + 1);
    if grid.codes[to] == 0 {
        return None;
    }
    Some(NumberedCell { cell, at: to })
}
