// Tracing all longest paths to an outlet of a list.
#![tactic(auto)]

ghost use Rattle.std.specs.Prelude.{◌≡◌, ◌*◌, ◌≤◌, length};
ghost use Rattle.search.specs.Tracing.{numbers_each};
ghost use Rattle.upstream.specs.Grids.{Ready};
ghost use Rattle.noting.specs.Grids.{Fresh};
ghost use Rattle.answers.specs.Entries.{catchment};
ghost use Rattle.answers.specs.Tracings.{call_of, lent, TracesByRecursion, TracesByStack};
ghost use Rattle.tracing.specs.Answering.{Told, ToldAndLists, Lists, ListsAndClears};
ghost use Rattle.tracing.specs.Preparing.{Prepares};
ghost use Rattle.tracing.specs.Grids.{Chosen, MetAt, cells_of, tracing_at};

use answers::{Refusal, Traced};
use cells::split_number;
use checks::check_place;
use filling::fill;
use listing::{answer_for, list_starts, refused};
use lists::clear;
use moves::Grid;
use notes::{Edition, cells_held};
use noting::{make_plain, make_ready};
use progress::Progress;
use stack::NUMBERS_EACH;
use upstream::FilledGrid;

// Traces an outlet by recursion, in a grid that holds the subaccumulation and comes back as it was. The starts wait in
// an array, since those of a length that is exceeded later must not be seen in the list.
fn by_recursion(
    edition: u32,
    grid: Grid,
    outlets: &[u32],
    subaccumulation: &mut [u32],
    dropping: bool,
    place: usize,
    starts: &mut [u32],
) -> Traced
    requires fresh { Fresh grid outlets.now subaccumulation.old }
    requires chosen { Chosen grid outlets.now place }
    requires place_bound { cells_of grid outlets.now place ≤ 4096 }
    ensures lists { Lists (tracing_at grid.entry outlets.now place edition dropping) starts.old result
        starts.new }
    ensures subaccumulation_unchanged { subaccumulation.new ≡ subaccumulation.old }
{
    let outlet = split_number(grid.cols, outlets[place]);
    let mut found = [0u32; 4096];
    make_ready(
        edition,
        grid,
        outlets,
        place,
        place + 1,
        subaccumulation,
        &mut found,
    );
    let filled = FilledGrid {
        grid,
        outlets,
        subaccumulation,
    };
    let p = recursion::trace(filled, edition, dropping, outlet, &mut found);
    make_plain(edition, grid.rows * grid.cols, subaccumulation);
    list_starts(&found, 4096, p.paths, starts);
    answer_for(p, starts.len())
}

// Searches an outlet's subwatershed from pending cells, in a grid that is ready for it. The starts are left before the
// end of the working numbers that the outlet's cells take.
pub fn search_at(
    filled: FilledGrid,
    edition: u32,
    dropping: bool,
    place: usize,
    work: &mut [u32],
) -> Progress
    requires ready { Ready filled }
    requires chosen { Chosen filled.grid filled.outlets.now place × MetAt edition filled place }
    requires place_in_bounds { numbers_each * cells_of filled.grid filled.outlets.now place ≤ length work.old }
    ensures { Told (tracing_at filled.entry.grid filled.entry.outlets.now place edition dropping)
        (cells_of filled.entry.grid filled.entry.outlets.now place) work.old result work.new }
{
    let cell = split_number(filled.grid.cols, filled.outlets[place]);
    stack::trace(filled, edition, dropping, cell, work)
}

// The same, and the starts are listed.
pub fn list_at(
    filled: FilledGrid,
    edition: u32,
    dropping: bool,
    place: usize,
    starts: &mut [u32],
    work: &mut [u32],
) -> Progress
    requires ready { Ready filled }
    requires chosen { Chosen filled.grid filled.outlets.now place × MetAt edition filled place }
    requires place_in_bounds { numbers_each * cells_of filled.grid filled.outlets.now place ≤ length work.old }
    ensures { ToldAndLists (tracing_at filled.entry.grid filled.entry.outlets.now place edition dropping)
        (cells_of filled.entry.grid filled.entry.outlets.now place) starts.old work.old result starts.new work.new }
{
    let at = filled.outlets[place] as usize;
    let end = NUMBERS_EACH * cells_held(filled.subaccumulation[at]) as usize;
    let p = search_at(filled, edition, dropping, place, work);
    list_starts(work, end, p.paths, starts);
    p
}

// Traces an outlet of so many cells from pending cells, in a grid that holds the subaccumulation and comes back as it
// was. The working numbers are cleared.
fn by_stack(
    edition: u32,
    grid: Grid,
    outlets: &[u32],
    subaccumulation: &mut [u32],
    dropping: bool,
    place: usize,
    cells: u32,
    starts: &mut [u32],
    work: &mut [u32],
) -> Traced
    requires fresh { Fresh grid outlets.now subaccumulation.old }
    requires chosen { Chosen grid outlets.now place }
    requires cells_value { (cells ≡ cells_of grid outlets.now place) × (numbers_each * cells ≤ length work.old) }
    ensures lists_and_clears { ListsAndClears (tracing_at grid.entry outlets.now place edition dropping) starts.old
        (cells_of grid.entry outlets.now place) work.old result starts.new work.new }
    ensures subaccumulation_unchanged { subaccumulation.new ≡ subaccumulation.old }
{
    make_ready(
        edition,
        grid,
        outlets,
        place,
        place + 1,
        subaccumulation,
        work,
    );
    let filled = FilledGrid {
        grid,
        outlets,
        subaccumulation,
    };
    let p = list_at(filled, edition, dropping, place, starts, work);
    make_plain(edition, grid.rows * grid.cols, subaccumulation);
    let end = NUMBERS_EACH * cells as usize;
    clear(end, work);
    answer_for(p, starts.len())
}

// What comes before either engine: 10, 11, 12, 14 to 18, and then the grid is filled. The cells of the chosen subwatershed.
fn prepare(
    rows: usize,
    cols: usize,
    codes: &[u8],
    accumulation: &[u32],
    outlets: &[u32],
    place: usize,
    subaccumulation: &mut [u32],
) -> Result<u32, Refusal>
    ensures { Prepares
        (catchment rows cols codes.now accumulation.now outlets.now) place
        subaccumulation.old result subaccumulation.new }
{
    let lengths = [accumulation.len(), subaccumulation.len()];
    check_place(rows, cols, codes, accumulation, outlets, place, &lengths)?;
    fill(Grid { rows, cols, codes }, outlets, subaccumulation);
    Ok(subaccumulation[outlets[place] as usize])
}

// Traces all longest paths to an outlet of the list by an edition, with or without dropping, by recursion: 25, 10, 11,
// 12, 14 to 19, 21. The grid is filled once 18 is past.
pub fn trace_by_recursion(
    edition: u32,
    rows: usize,
    cols: usize,
    codes: &[u8],
    accumulation: &[u32],
    outlets: &[u32],
    place: usize,
    dropping: bool,
    subaccumulation: &mut [u32],
    starts: &mut [u32],
) -> Traced
    ensures { TracesByRecursion
        (call_of edition rows cols codes.now accumulation.now outlets.now place
        dropping)
        (lent subaccumulation.old starts.old)
        result (lent subaccumulation.new starts.new) }
{
    if let Err(refusal) = Edition::try_from(edition) {
        return refused(refusal.number());
    }
    let cells = match prepare(
        rows,
        cols,
        codes,
        accumulation,
        outlets,
        place,
        subaccumulation,
    ) {
        Ok(cells) => cells,
        Err(refusal) => return refused(refusal.number()),
    };
    if cells > 4096 {
        return refused(Refusal::TooManyCells.number());
    }
    let grid = Grid { rows, cols, codes };
    by_recursion(
        edition,
        grid,
        outlets,
        subaccumulation,
        dropping,
        place,
        starts,
    )
}

// The same from pending cells, in lent working space: 25, 10, 11, 12, 14 to 18, 20, 21.
pub fn trace_by_stack(
    edition: u32,
    rows: usize,
    cols: usize,
    codes: &[u8],
    accumulation: &[u32],
    outlets: &[u32],
    place: usize,
    dropping: bool,
    subaccumulation: &mut [u32],
    starts: &mut [u32],
    work: &mut [u32],
) -> Traced
    ensures { TracesByStack
        (call_of edition rows cols codes.now accumulation.now outlets.now place
        dropping)
        (lent subaccumulation.old starts.old) work.old
        result (lent subaccumulation.new starts.new) work.new }
{
    if let Err(refusal) = Edition::try_from(edition) {
        return refused(refusal.number());
    }
    let cells = match prepare(
        rows,
        cols,
        codes,
        accumulation,
        outlets,
        place,
        subaccumulation,
    ) {
        Ok(cells) => cells,
        Err(refusal) => return refused(refusal.number()),
    };
    if work.len() < NUMBERS_EACH * cells as usize {
        return refused(Refusal::WorkingSpace.number());
    }
    let grid = Grid { rows, cols, codes };
    by_stack(
        edition,
        grid,
        outlets,
        subaccumulation,
        dropping,
        place,
        cells,
        starts,
        work,
    )
}
