// All outlets of a list traced from one reading of the grid.
#![tactic(auto)]

ghost use Rattle.std.specs.Prelude.{◌≡◌, map, ◌*◌, ◌≤◌, length, get_or};
ghost use Rattle.lists.specs.Lists.{greatest_of};
ghost use Rattle.lists.specs.Slices.{Within};
ghost use Rattle.search.specs.Tracing.{numbers_each};
ghost use Rattle.answers.specs.Refusals.{refusal_number};
ghost use Rattle.answers.specs.Entries.{catchment};
ghost use Rattle.alloutlets.specs.AllOutlets.{most_cells, traced_all, lent_all, TracesAll};
ghost use Rattle.moves.specs.Grids.{ground_of};
ghost use Rattle.noting.specs.Grids.{Fresh};
ghost use Rattle.passes.specs.Grids.{Traceable, Searchable};
ghost use Rattle.tracingall.specs.Grids.{SearchesAll};

use accumulation::subaccumulate;
use alloutlets::TracedAll;
use answers::Refusal;
use lists::clear;
use moves::Grid;
use notes::Edition;
use noting::{make_plain, make_ready};
use passes::{count_all, list_all};
use stack::NUMBERS_EACH;
use upstream::FilledGrid;

// The most cells that an outlet of the list has, in a grid that holds the subaccumulation.
fn most_cells(outlets: &[u32], subaccumulation: &[u32]) -> u32
    requires { Within (length subaccumulation.now) outlets.now }
    ensures { result
        ≡ greatest_of (map (λ o. get_or subaccumulation.now o 0) outlets.now) }
{
    let mut most = 0;
    for outlet in outlets {
        most = most.max(subaccumulation[*outlet as usize]);
    }
    most
}

// Past 23: all outlets are counted, and listed if there is room for all; then the working numbers are cleared.
fn search_all(
    filled: FilledGrid,
    edition: u32,
    end: usize,
    starts: &mut [u32],
    counts: &mut [u32],
    work: &mut [u32],
) -> TracedAll
    requires searchable { Searchable edition filled work.old }
    requires end_value { (end ≡ numbers_each * most_cells (ground_of filled.grid) filled.outlets.now)
        × (length filled.outlets.now ≤ length counts.old) }
    ensures { SearchesAll edition filled.entry.grid filled.entry.outlets.now starts.old counts.old work.old result
        starts.new counts.new work.new }
{
    let s = count_all(filled, edition, work);
    if starts.len() < s.paths as usize {
        clear(end, work);
        return TracedAll {
            number: Refusal::StartsRoom.number(),
            visited: s.visited,
            dropped: s.dropped,
        };
    }
    list_all(filled, edition, starts, counts, work);
    clear(end, work);
    TracedAll {
        number: 0,
        visited: s.visited,
        dropped: s.dropped,
    }
}

// The same in a grid that holds the subaccumulation, is made ready for the searches by the edition, and comes back as
// it was.
fn search_by(
    edition: u32,
    grid: Grid,
    outlets: &[u32],
    subaccumulation: &mut [u32],
    end: usize,
    starts: &mut [u32],
    counts: &mut [u32],
    work: &mut [u32],
) -> TracedAll
    requires fresh { Fresh grid outlets.now subaccumulation.old }
    requires traceable { Traceable grid outlets.now work.old }
    requires end_value { (end ≡ numbers_each * most_cells (ground_of grid) outlets.now)
        × (length outlets.now ≤ length counts.old) }
    ensures searches_all { SearchesAll edition grid.entry outlets.now starts.old counts.old work.old result
        starts.new counts.new work.new }
    ensures subaccumulation_unchanged { subaccumulation.new ≡ subaccumulation.old }
{
    make_ready(
        edition,
        grid,
        outlets,
        0,
        outlets.len(),
        subaccumulation,
        work,
    );
    let filled = FilledGrid {
        grid,
        outlets,
        subaccumulation,
    };
    let traced = search_all(filled, edition, end, starts, counts, work);
    make_plain(edition, grid.rows * grid.cols, subaccumulation);
    traced
}

// Refused before the searches. The answer keeps a number and no Result: 21 comes with the sums too.
fn refused_all(refusal: Refusal) -> TracedAll
    ensures { result ≡ traced_all (refusal_number refusal) 0 0 }
{
    TracedAll {
        number: refusal.number(),
        visited: 0,
        dropped: 0,
    }
}

// Traces all longest paths to each outlet of the list by an edition, from pending cells, with dropping: 25, 10, 11, 12,
// 14 to 17, 20, 23, 21. The grid is filled once 17 is past.
pub fn trace_all(
    edition: u32,
    rows: usize,
    cols: usize,
    codes: &[u8],
    accumulation: &[u32],
    outlets: &[u32],
    subaccumulation: &mut [u32],
    starts: &mut [u32],
    counts: &mut [u32],
    work: &mut [u32],
) -> TracedAll
    ensures { TracesAll edition
        (catchment rows cols codes.now accumulation.now outlets.now)
        (lent_all subaccumulation.old starts.old counts.old work.old) result
        (lent_all subaccumulation.new starts.new counts.new work.new) }
{
    if let Err(refusal) = Edition::try_from(edition) {
        return refused_all(refusal);
    }
    if let Err(refusal) = subaccumulate(rows, cols, codes, accumulation, outlets, subaccumulation) {
        return refused_all(refusal);
    }
    let end = NUMBERS_EACH * most_cells(outlets, subaccumulation) as usize;
    if work.len() < end {
        return refused_all(Refusal::WorkingSpace);
    }
    if counts.len() < outlets.len() {
        return refused_all(Refusal::Room);
    }
    let grid = Grid { rows, cols, codes };
    search_by(
        edition,
        grid,
        outlets,
        subaccumulation,
        end,
        starts,
        counts,
        work,
    )
}
