// A cell by its row and column: the next one, the one that a number names, divided or counted off, and a table of all
// cells of a grid.
#![tactic(auto)]

ghost use Rattle.std.specs.Prelude.{◌*◌, ◌+◌, ◌≤◌, ◌<◌};
ghost use Rattle.cells.specs.Numbers.{RowAndColumn, TableFits, CellTable};

// A cell of a grid.
#[derive(Clone, Copy)]
pub struct Cell {
    pub row: usize,
    pub col: usize,
}

impl Cell {
    // The next cell, row by row.
    pub fn next(self, cols: usize) -> Cell
        requires { (self.row ≤ 4096) × (self.col < cols) × (cols ≤ 4096) }
        ensures { RowAndColumn cols (self.row * cols + self.col + 1) result.row result.col }
    {
        let right = self.col + 1;
        if right < cols {
            Cell { col: right, ..self }
        } else {
            Cell {
                row: self.row + 1,
                col: 0,
            }
        }
    }
}

// The cell that a number names, where a caller of the library gave the number. Nothing else divides by the column
// count; .ci/divisions has the list of those that may call this.
pub fn split_number(cols: usize, number: u32) -> Cell
    requires { 0 < cols }
    ensures { RowAndColumn cols number result.row result.col }
{
    let at = number as usize;
    Cell {
        row: at / cols,
        col: at % cols,
    }
}

// A cell of a sheet, by its row and column as they are printed.
#[derive(Clone, Copy)]
pub struct SheetCell {
    pub row: u32,
    pub col: u32,
}

// The cell of a sheet that a number names, where the number comes from the library itself: the rows above it are
// counted off, of which a sheet has 63 at most. What is left decides when it ends, so there is no range to go through.
pub fn count_off(cols: u32, number: u32) -> SheetCell
    requires { 0 < cols }
    ensures { RowAndColumn cols number result.row result.col }
{
    let mut row: u32 = 0;
    let mut col = number;
    while cols <= col {
        col -= cols;
        row += 1;
    }
    SheetCell { row, col }
}

// A table of a grid's cells: the row and the column of each, at the place of its number. The cell is carried along to
// fill it, and a number that no caller gave is looked up in it.
pub fn table_cells(rows: usize, cols: usize, rows_of: &mut [u32], cols_of: &mut [u32])
    requires { TableFits rows cols rows_of.old cols_of.old }
    ensures { CellTable cols (rows * cols) rows_of.new cols_of.new }
{
    let n = rows * cols;
    let mut cell = Cell { row: 0, col: 0 };
    for k in 0..n {
        rows_of[k] = cell.row as u32;
        cols_of[k] = cell.col as u32;
        cell = cell.next(cols);
    }
}
