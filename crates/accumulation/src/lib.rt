// Accumulating, checking an accumulation, and subaccumulating.
#![tactic(auto)]

ghost use Rattle.std.specs.Prelude.{◌≡◌};
ghost use Rattle.ground.specs.Grid.{grid_of};
ghost use Rattle.answers.specs.Refusals.{number_told};
ghost use Rattle.answers.specs.Entries.{catchment, Accumulates, check_number, Subaccumulates};

use answers::Refusal;
use checks::{check_agreed, check_grid, check_outlets};
use filling::fill;
use moves::Grid;

// Accumulates a grid of codes: 10, 11, 12, 13. A ring is seen while filling, and the cells' places are then cleared.
pub fn accumulate(
    rows: usize,
    cols: usize,
    codes: &[u8],
    accumulation: &mut [u32],
) -> Result<(), Refusal>
    ensures { Accumulates (grid_of rows cols codes.now) accumulation.old
        (number_told result) accumulation.new }
{
    check_grid(rows, cols, codes, &[accumulation.len()])?;
    if !fill(Grid { rows, cols, codes }, &[], accumulation) {
        return Err(Refusal::Ring);
    }
    Ok(())
}

// Checks an accumulation: 10, 11, 12, 14.
#[tactic(auto, unfolding(answers::specs::Entries::check_number))]
pub fn check_accumulation(
    rows: usize,
    cols: usize,
    codes: &[u8],
    accumulation: &[u32],
) -> Result<(), Refusal>
    ensures { number_told result ≡ check_number (grid_of rows cols codes.now) accumulation.now }
{
    check_agreed(rows, cols, codes, accumulation, &[accumulation.len()])
}

// Subaccumulates a grid of codes under a list of outlets: 10, 11, 12, 14, 15, 16, 17. Where an accumulation agrees
// there is no ring, so that filling always succeeds.
pub fn subaccumulate(
    rows: usize,
    cols: usize,
    codes: &[u8],
    accumulation: &[u32],
    outlets: &[u32],
    subaccumulation: &mut [u32],
) -> Result<(), Refusal>
    ensures { Subaccumulates
        (catchment rows cols codes.now accumulation.now outlets.now)
        subaccumulation.old (number_told result) subaccumulation.new }
{
    let lengths = [accumulation.len(), subaccumulation.len()];
    check_outlets(rows, cols, codes, accumulation, outlets, &lengths)?;
    fill(Grid { rows, cols, codes }, outlets, subaccumulation);
    Ok(())
}
