// The search from pending cells, which stand at the front of the lent working space.
#![tactic(auto)]

ghost use Rattle.std.specs.Prelude.{◌≡◌, true, [], ◌∷◌, map, ◌+◌, ◌*◌, ◌≤◌, ◌<◌, length};
ghost use Rattle.lists.specs.Lists.{sum_of};
ghost use Rattle.search.specs.Tracing.{numbers_each};
ghost use Rattle.moves.specs.Grids.{On};
ghost use Rattle.notes.specs.Notes.{cells_held};
ghost use Rattle.upstream.specs.Grids.{Ready, OnGround, cells_at};
ghost use Rattle.stack.specs.Pending.{Short, pending_at, pending_with, PutOn};
ghost use Rattle.stack.specs.Near.{any_near};
ghost use Rattle.stack.specs.Draining.{Fits};
ghost use Rattle.stack.specs.Grids.{all_above, NoneFlowsIn, CellEntered, StackStands, StackTurned, StackTraced};

use cells::Cell;
use inflows::{Inflows, inflows_of};
use lengths::Length;
use moves::Grid;
use notes::{cells_held, is_met};
use progress::{Progress, begin, drop_cells, is_dropped, visit};
use upstream::{FilledGrid, is_inner, step_at, tributary};

// How many numbers of the working space a pending cell takes, and how many are asked for each cell.
pub const NUMBERS_EACH: usize = 3;

// A cell that waits, and its length.
#[derive(Clone, Copy)]
pub struct Pending {
    pub cell: Cell,
    pub len: Length,
}

// How far the search has come, and how many cells are pending.
#[derive(Clone, Copy)]
pub struct Stack {
    pub progress: Progress,
    pub top: usize,
}

// The pending cell above n others. Its numbers are row × 4,096 + column, and the counts of its length.
fn pending_at(work: &[u32], n: usize) -> Pending
    requires { numbers_each * (n + 1) ≤ length work.now }
    ensures { result ≡ pending_at work.now n }
{
    let at = NUMBERS_EACH * n;
    let cell = work[at] as usize;
    Pending {
        cell: Cell {
            row: cell / 4096,
            col: cell % 4096,
        },
        len: Length {
            straight: work[at + 1],
            diagonal: work[at + 2],
        },
    }
}

// A cell is put on n others.
fn put(work: &mut [u32], n: usize, cell: Cell, len: Length) -> usize
    requires { (numbers_each * (n + 1) ≤ length work.old) × (cell.row < 4096) × (cell.col < 4096) }
    ensures { PutOn (pending_with cell.row cell.col len ∷ []) n work.old result work.new }
{
    let at = NUMBERS_EACH * n;
    work[at] = (cell.row * 4096 + cell.col) as u32;
    work[at + 1] = len.straight;
    work[at + 2] = len.diagonal;
    n + 1
}

// What flows into a cell at this length is put on, each one step longer, the last neighbour first, so that the first
// comes on top.
fn put_inflows(
    grid: Grid,
    outlets: &[u32],
    cell: Cell,
    len: Length,
    top: usize,
    work: &mut [u32],
) -> usize
    requires on_cell { On grid cell }
    requires len_in_bounds { (numbers_each * (top + length (all_above grid outlets.now cell len)) ≤ length work.old)
        × Short len }
    ensures { PutOn (all_above grid.entry outlets.now cell len) top work.old result work.new }
{
    let inner = is_inner(grid.rows, grid.cols, cell);
    let mut at = top;
    for k in (0..8).rev() {
        if let Some(from) = tributary(inner, grid, outlets, cell, k) {
            let own = len.plus(step_at(k));
            at = put(work, at, from, own);
        }
    }
    at
}

// The cells that the words of an inflow record hold, in 64 bits so that they cannot overflow.
fn cells_above(inflows: Inflows) -> u64
    ensures { result ≡ sum_of (map cells_held inflows.values) }
{
    let mut total = 0;
    for word in inflows.values {
        total += u64::from(cells_held(word));
    }
    total
}

// Does an outlet lie within this reach of a cell's number?
fn lies_near(outlets: &[u32], at: usize, reach: usize) -> bool
    ensures { result ≡ any_near at reach outlets.now }
{
    outlets
        .iter()
        .any(|outlet| (*outlet as usize).abs_diff(at) <= reach)
}

// Is it known of a cell of n cells that no outlet flows in? Of a short list of outlets, if none is as near as a
// neighbour by its number; of a long one, if the subaccumulations of all that flows in add up to those cells.
fn none_flows_in(filled: FilledGrid, cell: Cell, n: u32) -> bool
    requires ready { Ready filled }
    requires on_ground { OnGround filled cell }
    requires n_value { n ≡ cells_at filled cell }
    ensures { result ≡ true → NoneFlowsIn filled.entry cell }
{
    let grid = filled.grid;
    if filled.outlets.len() < 16 {
        let at = cell.row * grid.cols + cell.col;
        return !lies_near(filled.outlets, at, grid.cols + 1);
    }
    let inflows = inflows_of(grid, filled.subaccumulation, cell);
    cells_above(inflows) == u64::from(n - 1)
}

// The inflows of a cell of n cells are put on. Outlets are not looked for where none is known to flow in.
fn climb(filled: FilledGrid, cell: Cell, n: u32, len: Length, top: usize, work: &mut [u32]) -> usize
    requires ready { Ready filled }
    requires on_ground { OnGround filled cell }
    requires n_value { (n ≡ cells_at filled cell) × (numbers_each * (top + n) ≤ length work.old) × Short len }
    ensures { PutOn (all_above filled.entry.grid filled.entry.outlets.now cell len) top work.old result
        work.new }
{
    let outlets = filled.outlets;
    if none_flows_in(filled, cell, n) {
        return put_inflows(filled.grid, &outlets[..0], cell, len, top, work);
    }
    put_inflows(filled.grid, outlets, cell, len, top, work)
}

// A cell is visited at its length, met or not by the edition, and its inflows wait. A headwater has none.
fn enter_cell(
    filled: FilledGrid,
    edition: u32,
    cell: Cell,
    len: Length,
    end: usize,
    p: Progress,
    top: usize,
    work: &mut [u32],
) -> Stack
    requires ready { Ready filled }
    requires on_ground { OnGround filled cell }
    requires fits { Fits (cells_at filled cell) len end p top work.old }
    ensures { CellEntered edition filled.entry cell len end p top work.old result work.new }
{
    let at = cell.row * filled.grid.cols + cell.col;
    let word = filled.subaccumulation[at];
    let n = cells_held(word);
    let met = is_met(edition, word);
    if n == 1 {
        return Stack {
            progress: visit(work, end, at as u32, met, len, p),
            top,
        };
    }
    let progress = visit(work, end, at as u32, met, len, p);
    let higher = climb(filled, cell, n, len, top, work);
    Stack {
        progress,
        top: higher,
    }
}

// The outlet is entered. That is done once, and apart from other cells: enter_cell then has one caller, and the
// compiler makes one loop of the whole search.
fn enter_outlet(
    filled: FilledGrid,
    edition: u32,
    cell: Cell,
    len: Length,
    end: usize,
    p: Progress,
    top: usize,
    work: &mut [u32],
) -> Stack
    requires ready { Ready filled }
    requires on_ground { OnGround filled cell }
    requires fits { Fits (cells_at filled cell) len end p top work.old }
    ensures { CellEntered edition filled.entry cell len end p top work.old result work.new }
{
    let at = cell.row * filled.grid.cols + cell.col;
    let met = is_met(edition, filled.subaccumulation[at]);
    let progress = visit(work, end, at as u32, met, len, p);
    let higher = put_inflows(filled.grid, filled.outlets, cell, len, top, work);
    Stack {
        progress,
        top: higher,
    }
}

// One pending cell is taken off, and dropped or entered.
fn turn(
    filled: FilledGrid,
    edition: u32,
    dropping: bool,
    end: usize,
    s: Stack,
    work: &mut [u32],
) -> Stack
    requires ready { Ready filled }
    requires stack_stands { StackStands filled end s work.old × (0 < s.top) }
    ensures { StackTurned edition filled.entry dropping end s work.old result work.new }
{
    let top = s.top - 1;
    let w = pending_at(work, top);
    let n = cells_held(filled.subaccumulation[w.cell.row * filled.grid.cols + w.cell.col]);
    if is_dropped(dropping, w.len, n, s.progress) {
        return Stack {
            progress: drop_cells(s.progress, n),
            top,
        };
    }
    enter_cell(filled, edition, w.cell, w.len, end, s.progress, top, work)
}

// Traces all longest paths to an outlet. Of the working space it takes so many numbers for each cell: pending cells
// stand at their front, and the starts before their end.
pub fn trace(
    filled: FilledGrid,
    edition: u32,
    dropping: bool,
    cell: Cell,
    work: &mut [u32],
) -> Progress
    requires ready { Ready filled }
    requires on_ground { OnGround filled cell }
    requires col_in_bounds { numbers_each * cells_at filled cell ≤ length work.old }
    ensures { StackTraced edition filled.entry dropping cell work.old result work.new }
{
    let at = cell.row * filled.grid.cols + cell.col;
    let end = NUMBERS_EACH * cells_held(filled.subaccumulation[at]) as usize;
    let mut s = enter_outlet(filled, edition, cell, Length::none(), end, begin(), 0, work);
    // No for: what is put on while cells are taken off is no range to go over.
    while s.top > 0 {
        s = turn(filled, edition, dropping, end, s, work);
    }
    s.progress
}
