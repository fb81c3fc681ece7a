// Drawing one flow path: the cells of a walk, from its start to its outlet.
#![tactic(auto)]

ghost use Rattle.std.specs.Prelude.{◌≡◌, ◌<◌, ◌^◌, length};
ghost use Rattle.lists.specs.Slices.{overlaid};
ghost use Rattle.moves.specs.Grids.{ground_of};
ghost use Rattle.answers.specs.Drawing.{drawing_of, draw_number, drawn_part, Draws};
ghost use Rattle.answers.specs.Refusals.{number_told};
ghost use Rattle.flowpath.specs.Cells.{cell_of};
ghost use Rattle.drawing.specs.Judging.{count_told, Judged};
ghost use Rattle.drawing.specs.Cells.{first_cells, Drawable};

use answers::Refusal;
use checks::check_place;
use flowpath::{path_length, walk_from};
use moves::{Grid, Walk};

// A cell number of the grid, as it is lent.
fn cell_number(cols: usize, walk: Walk) -> u32
    requires { cell_of cols walk < 2 ^ 24 }
    ensures { result ≡ cell_of cols walk }
{
    (walk.cell.row * cols + walk.cell.col) as u32
}

// Writes the first cells of the walk from a cell.
fn write_cells(grid: Grid, start: u32, count: usize, path: &mut [u32])
    requires { Drawable (ground_of grid) start count (length path.old) }
    ensures { path.new
        ≡ overlaid (first_cells (ground_of grid.entry) start count) path.old }
{
    let mut walk = walk_from(grid.cols, start);
    for place in &mut path[..count] {
        *place = cell_number(grid.cols, walk);
        walk = walk.step(grid);
    }
}

// Judges a drawing: 10, 11, 12, 14 to 18, 22, 23. The walk is measured and nothing is written: how many cells there are
// to write is handed back.
fn judge(
    rows: usize,
    cols: usize,
    codes: &[u8],
    accumulation: &[u32],
    outlets: &[u32],
    place: usize,
    start: u32,
    path: &[u32],
) -> Result<usize, Refusal>
    ensures { Judged
        (drawing_of rows cols codes.now accumulation.now outlets.now place start)
        path.now result }
{
    let lent = [accumulation.len()];
    check_place(rows, cols, codes, accumulation, outlets, place, &lent)?;
    let grid = Grid { rows, cols, codes };
    let cells = path_length(grid, accumulation, outlets, outlets[place], start);
    let count = cells.ok_or(Refusal::Start)?;
    if path.len() < count {
        return Err(Refusal::Room);
    }
    Ok(count)
}

// Draws the path from a start to an outlet of the list into the first of the lent places, the start first and the
// outlet last, and hands back how many of them hold it: 10, 11, 12, 14 to 18, 22, 23.
#[tactic(auto, using(crate::proofs::Accepted::nothing_written))]
pub fn draw_into(
    rows: usize,
    cols: usize,
    codes: &[u8],
    accumulation: &[u32],
    outlets: &[u32],
    place: usize,
    start: u32,
    path: &mut [u32],
) -> Result<usize, Refusal>
    ensures { Draws
        (drawing_of rows cols codes.now accumulation.now outlets.now place start)
        path.old (number_told result) (count_told result) path.new }
{
    let count = judge(rows, cols, codes, accumulation, outlets, place, start, path)?;
    let grid = Grid { rows, cols, codes };
    write_cells(grid, start, count, path);
    Ok(count)
}

// The same, handing back the part of the lent places that holds the path; it is empty on refusal.
pub fn draw<'a>(
    rows: usize,
    cols: usize,
    codes: &[u8],
    accumulation: &[u32],
    outlets: &[u32],
    place: usize,
    start: u32,
    path: &'a mut [u32],
) -> &'a mut [u32]
    ensures { (result.now
        ≡ drawn_part
        (drawing_of rows cols codes.now accumulation.now outlets.now place start)
        path.old)
        × (result.ref_ptr ≡ path.entry.ref_ptr) }
{
    let drawn = draw_into(rows, cols, codes, accumulation, outlets, place, start, path);
    let count = drawn.unwrap_or(0);
    &mut path[..count]
}

// What `draw` is refused with, if it is. Nothing is written.
pub fn check_drawing(
    rows: usize,
    cols: usize,
    codes: &[u8],
    accumulation: &[u32],
    outlets: &[u32],
    place: usize,
    start: u32,
    path: &[u32],
) -> Result<(), Refusal>
    ensures { number_told result
        ≡ draw_number
        (drawing_of rows cols codes.now accumulation.now outlets.now place start)
        path.now }
{
    judge(rows, cols, codes, accumulation, outlets, place, start, path)?;
    Ok(())
}
