// The inflow record of a cell: what its neighbours have that flow in.
#![tactic(auto)]

ghost use Rattle.std.specs.Prelude.{◌≡◌};
ghost use Rattle.lists.specs.Lists.{sum_of};
ghost use Rattle.ground.specs.Grid.{inflow_record};
ghost use Rattle.moves.specs.Grids.{ground_of, number_in};
ghost use Rattle.inflows.specs.Values.{value_at};
ghost use Rattle.inflows.specs.Grids.{HasCell, InnerOn, InnerCell, LiesBeside};

use cells::Cell;
use moves::{Grid, inflow_from, neighbour_at};
use std::array;

// The accumulations of the neighbours that flow in, in neighbour order; 0 where one does not.
#[derive(Clone, Copy)]
pub struct Inflows {
    pub values: [u32; 8],
}

// What flows in from neighbour k.
fn inflow_at(grid: Grid, accumulation: &[u32], cell: Cell, k: usize) -> u32
    requires { HasCell grid accumulation.now cell }
    ensures { result ≡ value_at (ground_of grid.entry) accumulation.now (number_in grid.entry cell) k }
{
    match inflow_from(grid, cell, k) {
        Some(from) => accumulation[from.row * grid.cols + from.col],
        None => 0,
    }
}

// A neighbour of an inner cell: its number, and whether it flows in. No Option: the number is one of the grid either way,
// and is looked up before the answer is.
#[derive(Clone, Copy)]
pub struct Beside {
    pub at: usize,
    pub flows: bool,
}

// Neighbour k of an inner cell. No border is tested.
pub fn inner_neighbour(grid: Grid, cell: Cell, k: usize) -> Beside
    requires { InnerOn grid cell }
    ensures { LiesBeside grid.entry cell k result }
{
    let n = neighbour_at(k);
    let at = (cell.row + n.row - 1) * grid.cols + (cell.col + n.col - 1);
    Beside {
        at,
        flows: grid.codes[at] == n.back,
    }
}

// What flows in from neighbour k of an inner cell. The number is loaded before it is asked whether the neighbour flows
// in, so that no branch is left. `if n.flows { value } else { 0 }` would leave one, and check 14 takes 1.5 times as long.
fn inner_inflow_at(grid: Grid, accumulation: &[u32], cell: Cell, k: usize) -> u32
    requires { InnerCell grid accumulation.now cell }
    ensures { result ≡ value_at (ground_of grid.entry) accumulation.now (number_in grid.entry cell) k }
{
    let n = inner_neighbour(grid, cell, k);
    let mut value = accumulation[n.at];
    if !n.flows {
        value = 0;
    }
    value
}

// The inflow record of an inner cell. It has one caller, so that it is inlined there.
pub fn inner_inflows(grid: Grid, accumulation: &[u32], cell: Cell) -> Inflows
    requires { InnerCell grid accumulation.now cell }
    ensures { result.values ≡ inflow_record (ground_of grid.entry) accumulation.now (number_in grid.entry cell) }
{
    Inflows {
        values: array::from_fn(|k| inner_inflow_at(grid, accumulation, cell, k)),
    }
}

// The inflow record of any cell.
pub fn inflows_of(grid: Grid, accumulation: &[u32], cell: Cell) -> Inflows
    requires { HasCell grid accumulation.now cell }
    ensures { result.values ≡ inflow_record (ground_of grid.entry) accumulation.now (number_in grid.entry cell) }
{
    Inflows {
        values: array::from_fn(|k| inflow_at(grid, accumulation, cell, k)),
    }
}

impl Inflows {
    // The sum of the record, in 64 bits so that it cannot overflow.
    pub fn sum(self) -> u64
        ensures { result ≡ sum_of self.values }
    {
        self.values.iter().map(|value| u64::from(*value)).sum()
    }
}
