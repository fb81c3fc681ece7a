// The checks 10 to 18 of the grid entries. The answer is the first that fails.
#![tactic(auto)]

ghost use Rattle.std.specs.Prelude.{◌≡◌, ◌&&◌, length, leb};
ghost use Rattle.lists.specs.Lists.{In, different};
ghost use Rattle.ground.specs.Tables.{Table, codes_of};
ghost use Rattle.ground.specs.Grid.{grid_in, grid_of};
ghost use Rattle.moves.specs.Grids.{ground_of};
ghost use Rattle.answers.specs.Checks.{first_failed, all_pass, is_side};
ghost use Rattle.answers.specs.Refusals.{number_told};
ghost use Rattle.answers.specs.Entries.{catchment, grid_checks, agreed_checks, outlet_checks, place_checks};
ghost use Rattle.checks.specs.Tests.{is_placed};

use agreement::agrees_all;
use answers::Refusal;
use moves::Grid;
use tables::{all_codes, ours};

// 10: is it a number of rows or of columns?
fn is_side(n: usize) -> bool
    ensures { result ≡ is_side n }
{
    (1..=4096).contains(&n)
}

// 11: has each lent grid n places? The lengths of the grids are given.
fn all_reach(n: usize, lent: &[usize]) -> bool
    ensures { result ≡ all_pass (λ m. leb n m) lent.now }
{
    lent.iter().all(|places| n <= *places)
}

// 10, 11, 12, of codes in the given table. The lengths of the other lent grids are given. No product is taken before 10
// is passed.
pub fn check_grid_in(
    table: &[u8; 10],
    rows: usize,
    cols: usize,
    codes: &[u8],
    lent: &[usize],
) -> Result<(), Refusal>
    requires { length table.now ≡ 10 }
    ensures { (t : Table) → table.now ≡ codes_of t
        → number_told result ≡ first_failed (grid_checks (grid_in t rows cols codes.now) lent.now) }
{
    if !is_side(rows) || !is_side(cols) {
        return Err(Refusal::Sides);
    }
    let n = rows * cols;
    if codes.len() < n || !all_reach(n, lent) {
        return Err(Refusal::GridRoom);
    }
    if !all_codes(table, codes, n) {
        return Err(Refusal::Code);
    }
    Ok(())
}

// The same of codes in our table.
pub fn check_grid(rows: usize, cols: usize, codes: &[u8], lent: &[usize]) -> Result<(), Refusal>
    ensures { number_told result ≡ first_failed (grid_checks (grid_of rows cols codes.now) lent.now) }
{
    check_grid_in(&ours(), rows, cols, codes, lent)
}

// 10, 11, 12, 14. The lengths of the lent grids but the codes are given, the accumulation's among them.
pub fn check_agreed(
    rows: usize,
    cols: usize,
    codes: &[u8],
    accumulation: &[u32],
    lent: &[usize],
) -> Result<(), Refusal>
    requires { In (length accumulation.now) lent.now }
    ensures { number_told result
        ≡ first_failed (agreed_checks (grid_of rows cols codes.now) accumulation.now
        lent.now) }
{
    check_grid(rows, cols, codes, lent)?;
    let grid = Grid { rows, cols, codes };
    if !agrees_all(grid, accumulation) {
        return Err(Refusal::Accumulation);
    }
    Ok(())
}

// 15: has the list from 1 to 256 outlets?
fn few_enough(outlets: &[u32]) -> bool
    ensures { result ≡ leb 1 (length outlets.now) && leb (length outlets.now) 256 }
{
    (1..=256).contains(&outlets.len())
}

// 16: is the outlet the number of a cell with ground? The code is looked up only within the grid.
pub fn is_placed(grid: Grid, outlet: u32) -> bool
    ensures { result ≡ is_placed (ground_of grid.entry) outlet }
{
    let at = outlet as usize;
    at < grid.rows * grid.cols && grid.codes[at] != 0
}

// 16: is each outlet of the list?
fn all_placed(grid: Grid, outlets: &[u32]) -> bool
    ensures { result ≡ all_pass (is_placed (ground_of grid.entry)) outlets.now }
{
    outlets.iter().all(|outlet| is_placed(grid, *outlet))
}

// 17: does none stand there twice?
fn all_different(outlets: &[u32]) -> bool
    ensures { result ≡ different outlets.now }
{
    for (i, outlet) in outlets.iter().enumerate() {
        if outlets[i + 1..].contains(outlet) {
            return false;
        }
    }
    true
}

// 10, 11, 12, 14, 15, 16, 17. The lengths are given as above.
pub fn check_outlets(
    rows: usize,
    cols: usize,
    codes: &[u8],
    accumulation: &[u32],
    outlets: &[u32],
    lent: &[usize],
) -> Result<(), Refusal>
    requires { In (length accumulation.now) lent.now }
    ensures { number_told result
        ≡ first_failed (outlet_checks
        (catchment rows cols codes.now accumulation.now outlets.now)
        lent.now) }
{
    check_agreed(rows, cols, codes, accumulation, lent)?;
    let grid = Grid { rows, cols, codes };
    if !few_enough(outlets) {
        return Err(Refusal::NoOutlets);
    }
    if !all_placed(grid, outlets) {
        return Err(Refusal::OutletOffGround);
    }
    if !all_different(outlets) {
        return Err(Refusal::OutletTwice);
    }
    Ok(())
}

// 10, 11, 12, 14 to 18. The place asked for, counted from 0, is one of the list. The lengths are given as above.
pub fn check_place(
    rows: usize,
    cols: usize,
    codes: &[u8],
    accumulation: &[u32],
    outlets: &[u32],
    place: usize,
    lent: &[usize],
) -> Result<(), Refusal>
    requires { In (length accumulation.now) lent.now }
    ensures { number_told result
        ≡ first_failed (place_checks
        (catchment rows cols codes.now accumulation.now outlets.now)
        place lent.now) }
{
    check_outlets(rows, cols, codes, accumulation, outlets, lent)?;
    if outlets.len() <= place {
        return Err(Refusal::Place);
    }
    Ok(())
}
