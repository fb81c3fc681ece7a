// The search by recursion: tracing a cell and tracing its inflows, each calling the other.
#![tactic(auto)]

ghost use Rattle.std.specs.Prelude.{◌≡◌, ◌≤◌, ◌<◌, ◌^◌, length};
ghost use Rattle.upstream.specs.Grids.{Ready, OnGround, cells_at};
ghost use Rattle.recursion.specs.Grids.{number_in, turn_at, TurnReady, NextTurn, VisitedAt, Traced};
ghost use Rattle.recursion.specs.Grids.{CellReady, InflowsReady, CellTraced, InflowsTraced};

use cells::Cell;
use lengths::{Length, Step};
use notes::{cells_held, is_met};
use progress::{Progress, begin, drop_cells, is_dropped, visit};
use upstream::{FilledGrid, is_inner, step_at, tributary};

// Where the search turns to next: neighbour k, its cell, with so many cells, and its step down.
#[derive(Clone, Copy)]
pub struct Turn {
    pub k: usize,
    pub cell: Cell,
    pub cells: u32,
    pub step: Step,
}

// The turn to a neighbour.
fn turn_at(filled: &FilledGrid, k: usize, cell: Cell) -> Turn
    requires { (number_in filled.now cell < length filled.now.subaccumulation.now) × (number_in filled.now cell < 2 ^ 24) }
    ensures { result ≡ turn_at filled.now k cell }
{
    let at = cell.row * filled.grid.cols + cell.col;
    Turn {
        k,
        cell,
        cells: cells_held(filled.subaccumulation[at]),
        step: step_at(k),
    }
}

// The next neighbour, from k on, that flows in and is no outlet; none where none is left.
fn next_turn(filled: &FilledGrid, cell: Cell, k: usize) -> Option<Turn>
    requires { TurnReady filled.now cell k }
    ensures { NextTurn filled.now cell k result }
{
    let inner = is_inner(filled.grid.rows, filled.grid.cols, cell);
    for n in k..8 {
        if let Some(from) = tributary(inner, filled.grid, filled.outlets, cell, n) {
            return Some(turn_at(filled, n, from));
        }
    }
    None
}

// A cell is visited at its length, which is met if the cell's word says so by the edition.
fn visit_at(
    filled: &FilledGrid,
    edition: u32,
    cell: Cell,
    len: Length,
    p: Progress,
    found: &mut [u32; 4096],
) -> Progress
    requires number_bound { (number_in filled.now cell < length filled.now.subaccumulation.now) × (number_in filled.now cell < 2 ^ 24) }
    requires paths_bound { (p.paths < 4096) × (p.visited < 4096) }
    ensures { VisitedAt edition filled.now cell len p found.old result found.new }
{
    let at = cell.row * filled.grid.cols + cell.col;
    let met = is_met(edition, filled.subaccumulation[at]);
    visit(found, 4096, at as u32, met, len, p)
}

// A cell is visited, then its inflows.
#[cycle(trace_cell_trace_inflows)]
fn trace_cell(
    filled: &FilledGrid,
    edition: u32,
    dropping: bool,
    cell: Cell,
    len: Length,
    p: Progress,
    found: &mut [u32; 4096],
) -> Progress
    requires ready { Ready filled.now }
    requires cell_ready { CellReady filled.now cell len p found.old }
    ensures { CellTraced edition filled.now dropping cell len p found.old result found.new }
{
    let q = visit_at(filled, edition, cell, len, p, found);
    trace_inflows(filled, edition, dropping, cell, len, 0, q, found)
}

// The inflows of a cell at this length, from neighbour k on: each is dropped or traced before the next.
#[cycle(trace_cell_trace_inflows)]
fn trace_inflows(
    filled: &FilledGrid,
    edition: u32,
    dropping: bool,
    cell: Cell,
    len: Length,
    k: usize,
    p: Progress,
    found: &mut [u32; 4096],
) -> Progress
    requires ready { Ready filled.now }
    requires inflows_ready { InflowsReady filled.now cell len k p found.old }
    ensures { InflowsTraced edition filled.now dropping cell len k p found.old result found.new }
{
    let Some(t) = next_turn(filled, cell, k) else {
        return p;
    };
    let left = t.k + 1;
    let longer = len.plus(t.step);
    if is_dropped(dropping, longer, t.cells, p) {
        let q = drop_cells(p, t.cells);
        return trace_inflows(filled, edition, dropping, cell, len, left, q, found);
    }
    let q = trace_cell(filled, edition, dropping, t.cell, longer, p, found);
    trace_inflows(filled, edition, dropping, cell, len, left, q, found)
}

// Traces all longest paths to an outlet of at most 4,096 cells, by recursion. The starts come to stand before the end
// of the array. The outlet is visited here, and trace_cell called from one place only: the compiler then makes one
// frame of the two functions of the cycle.
pub fn trace(
    filled: FilledGrid,
    edition: u32,
    dropping: bool,
    cell: Cell,
    found: &mut [u32; 4096],
) -> Progress
    requires ready { Ready filled }
    requires on_ground { OnGround filled cell }
    requires cells_bound { (cells_at filled cell ≤ 4096) × (length found.old ≡ 4096) }
    ensures { Traced edition filled.entry dropping cell result found.new }
{
    let none = Length::none();
    let p = visit_at(&filled, edition, cell, none, begin(), found);
    trace_inflows(&filled, edition, dropping, cell, none, 0, p, found)
}
