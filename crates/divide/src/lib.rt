// The divide of a subwatershed, told by notes in the lent subaccumulation grid: its cells are gathered and noted as
// inside, those beside no outside cell are noted as enclosed, and then none is inside any more.
#![tactic(auto)]

ghost use Rattle.std.specs.Prelude.{◌≡◌, ◌*◌, ◌≤◌, length, get_or};
ghost use Rattle.lists.specs.Slices.{Within};
ghost use Rattle.moves.specs.Grids.{ground_of, number_in};
ghost use Rattle.inflows.specs.Grids.{InnerOn};
ghost use Rattle.divide.specs.Divides.{NotesOutlets, ClearsNotes, beside_outside, NotesEnclosed};
ghost use Rattle.divide.specs.Grids.{HasWords, HasList, NotesCells, LeavesCells, CanNote};

use cells::{Cell, split_number};
use gathering::gather;
use inflows::inner_neighbour;
use moves::Grid;
use notes::{ENCLOSED, INSIDE, OUTLET};
use upstream::is_inner;

// Notes the outlets, each of them one of the first n cells.
pub fn note_outlets(n: usize, outlets: &[u32], words: &mut [u32])
    requires { (n ≤ length words.old) × Within n outlets.now }
    ensures { NotesOutlets n outlets.now words.old words.new }
{
    for &outlet in outlets {
        let at = outlet as usize;
        words[at] = words[at] % OUTLET + OUTLET;
    }
}

// Takes all notes of the first n words away.
pub fn clear_notes(n: usize, words: &mut [u32])
    requires { n ≤ length words.old }
    ensures { ClearsNotes n words.old words.new }
{
    for word in &mut words[..n] {
        *word %= OUTLET;
    }
}

// Has an inner cell a neighbour that is not noted as inside? No border is tested.
fn inner_beside(grid: Grid, words: &[u32], cell: Cell) -> bool
    requires { InnerOn grid cell × (grid.rows * grid.cols ≤ length words.now) }
    ensures { result ≡ beside_outside (ground_of grid.entry) words.now (number_in grid.entry cell) }
{
    (0..8).any(|k| words[inner_neighbour(grid, cell, k).at] < INSIDE)
}

// Has a cell a neighbour that is off the grid or not noted as inside?
fn is_beside(grid: Grid, words: &[u32], cell: Cell) -> bool
    requires { HasWords grid words.now cell }
    ensures { result ≡ beside_outside (ground_of grid.entry) words.now (number_in grid.entry cell) }
{
    !is_inner(grid.rows, grid.cols, cell) || inner_beside(grid, words, cell)
}

// Notes, of the first n cells of a list, those beside no outside cell as enclosed.
fn note_cells(grid: Grid, n: usize, list: &[u32], words: &mut [u32])
    requires { HasList grid words.old list.now n }
    ensures { NotesCells grid.entry n list.now words.old words.new }
{
    for &number in &list[..n] {
        let listed = number as usize;
        let cell = Cell {
            row: listed / 4096,
            col: listed % 4096,
        };
        if !is_beside(grid, words, cell) {
            let at = cell.row * grid.cols + cell.col;
            let word = words[at];
            words[at] = word % ENCLOSED + ENCLOSED + word / INSIDE * INSIDE;
        }
    }
}

// The first n cells of a list are inside no more.
fn leave_cells(grid: Grid, n: usize, list: &[u32], words: &mut [u32])
    requires { HasList grid words.old list.now n }
    ensures { LeavesCells grid.entry n list.now words.old words.new }
{
    for &number in &list[..n] {
        let listed = number as usize;
        words[listed / 4096 * grid.cols + listed % 4096] %= INSIDE;
    }
}

// Notes the enclosed cells of the subwatershed of the outlet at a place of the list.
pub fn note_enclosed(grid: Grid, outlets: &[u32], place: usize, words: &mut [u32], list: &mut [u32])
    requires { CanNote grid outlets.now place words.old list.old }
    ensures { NotesEnclosed (ground_of grid.entry) outlets.now
        (get_or outlets.now place 0) (grid.entry.rows * grid.entry.cols) words.old list.old
        words.new list.new }
{
    let outlet = split_number(grid.cols, outlets[place]);
    let n = gather(grid, outlets, outlet, words, list);
    note_cells(grid, n, list, words);
    leave_cells(grid, n, list, words);
}
