// The first word of every cell of a lent grid: how many neighbours flow in, and the cell itself. Each word is written
// once, by looking at the neighbours, and no word is read; so the inner cells of a row are counted several at once.
#![tactic(auto)]

ghost use Rattle.std.specs.Prelude.{◌≡◌, count_by, ◌*◌, ◌+◌, ◌-◌, ◌≤◌, ◌<◌};
ghost use Rattle.moves.specs.Grids.{On, number_in, ground_of};
ghost use Rattle.inflows.specs.Values.{flows_at};
ghost use Rattle.inflows.specs.Grids.{InnerOn};
ghost use Rattle.counting.specs.Counting.{word_by, counted_word, Counts, CountsRow};
ghost use Rattle.counting.specs.Grids.{Countable};

use cells::Cell;
use inflows::inner_neighbour;
use moves::{Grid, inflow_from};
use std::array;

// One inflow, in a cell's word.
pub const INFLOW: u32 = 33554432;

// Does neighbour k of a cell flow in?
fn flows_in(grid: Grid, cell: Cell, k: usize) -> bool
    requires { On grid cell }
    ensures { result ≡ flows_at (ground_of grid.entry) (number_in grid.entry cell) k }
{
    inflow_from(grid, cell, k).is_some()
}

// The word of a cell with this code, by which neighbours flow in: 0 at a null cell, else 1 and the inflows. It adds up
// before it asks for the code, so that no branch is left.
fn word_of(code: u8, flows: &[bool; 8]) -> u32
    ensures { result ≡ word_by code (count_by (λ b. b) flows.now) }
{
    let inflows: u32 = flows.iter().map(|flows| u32::from(*flows)).sum();
    let word = 1 + INFLOW * inflows;
    if code == 0 { 0 } else { word }
}

// The word of any cell. It adds up one neighbour after the other: where all eight answers are kept in an array first, it
// takes half as many instructions again.
fn word_at(grid: Grid, cell: Cell) -> u32
    requires { On grid cell }
    ensures { result ≡ counted_word (ground_of grid.entry) (number_in grid.entry cell) }
{
    let mut word = 1;
    for k in 0..8 {
        let flows = flows_in(grid, cell, k);
        if flows {
            word += INFLOW;
        }
    }
    let here = cell.row * grid.cols + cell.col;
    if grid.codes[here] == 0 {
        return 0;
    }
    word
}

// The word of an inner cell. No border is tested.
fn inner_word_at(grid: Grid, cell: Cell) -> u32
    requires { InnerOn grid cell }
    ensures { result ≡ counted_word (ground_of grid.entry) (number_in grid.entry cell) }
{
    let here = cell.row * grid.cols + cell.col;
    word_of(
        grid.codes[here],
        &array::from_fn(|k| inner_neighbour(grid, cell, k).flows),
    )
}

// Counts the inner cells of a row that is neither the first nor the last.
fn count_inside(grid: Grid, words: &mut [u32], row: usize)
    requires { Countable grid words.old × (1 ≤ row) × (row + 1 < grid.rows) }
    ensures { CountsRow (ground_of grid.entry) row 1 (grid.entry.cols - 1) words.old words.new }
{
    for col in 1..grid.cols - 1 {
        words[row * grid.cols + col] = inner_word_at(grid, Cell { row, col });
    }
}

// Counts the cells of a row from a column to before another.
fn count_part(grid: Grid, words: &mut [u32], row: usize, from: usize, end: usize)
    requires { Countable grid words.old × (row < grid.rows) × (from ≤ end) × (end ≤ grid.cols) }
    ensures { CountsRow (ground_of grid.entry) row from end words.old words.new }
{
    for col in from..end {
        words[row * grid.cols + col] = word_at(grid, Cell { row, col });
    }
}

// Counts a row: at the grid's border every cell by itself, else the cells between the first and the last at once. The
// first and the last row are two calls: where the row is known to be the first, the compiler leaves the one above out, and a
// grid of one row takes half the time.
fn count_row(grid: Grid, words: &mut [u32], row: usize)
    requires { Countable grid words.old × (row < grid.rows) }
    ensures { CountsRow (ground_of grid.entry) row 0 grid.entry.cols words.old words.new }
{
    if row < 1 {
        return count_part(grid, words, row, 0, grid.cols);
    }
    if grid.rows <= row + 1 {
        return count_part(grid, words, row, 0, grid.cols);
    }
    count_part(grid, words, row, 0, 1);
    count_inside(grid, words, row);
    count_part(grid, words, row, grid.cols - 1, grid.cols)
}

// Counts every cell.
pub fn count_all(grid: Grid, words: &mut [u32])
    requires { Countable grid words.old }
    ensures { Counts (ground_of grid.entry) (grid.entry.rows * grid.entry.cols) words.old words.new }
{
    for row in 0..grid.rows {
        count_row(grid, words, row);
    }
}
