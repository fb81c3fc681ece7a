// Flow lengths: of every cell of a subwatershed, downstream to its outlet and upstream to the farthest cell above it,
// in no memory but the four grids.
#![tactic(auto)]

ghost use Rattle.std.specs.Prelude.{◌≡◌};
ghost use Rattle.moves.specs.Grids.{ground_of};
ghost use Rattle.answers.specs.Entries.{catchment};
ghost use Rattle.answers.specs.FlowLengths.{length_grids, lengths_over, TellsFlowLengths};
ghost use Rattle.answers.specs.Refusals.{number_told};
ghost use Rattle.lengthgrids.specs.Grids.{held_by, SameGrids};
ghost use Rattle.climbing.specs.Grids.{Climbable};

use answers::Refusal;
use checks::check_outlets;
use climbing::climb_all;
use lengthgrids::{Grids, mark};
use moves::Grid;

// Gives every cell its lengths. Cells that are not entered keep the 0 of the beginning.
fn give_all(grid: Grid, outlets: &[u32], grids: &mut Grids<'_>)
    requires { Climbable grid outlets.now (held_by grids.old) }
    ensures same { SameGrids grids.old grids.new }
    ensures given { held_by grids.new ≡ lengths_over (ground_of grid.entry) outlets.now (held_by grids.old) }
{
    let n = grid.rows * grid.cols;
    grids.prepare(n, outlets);
    climb_all(grid, outlets, grids);
    mark(n, outlets, grids.down_diagonal, 0);
}

// Tells the flow lengths of every cell: 10, 11, 12, 14, 15, 16, 17. Cells of no subwatershed have 0 in all four grids.
pub fn flow_lengths(
    rows: usize,
    cols: usize,
    codes: &[u8],
    accumulation: &[u32],
    outlets: &[u32],
    down_straight: &mut [u32],
    down_diagonal: &mut [u32],
    up_straight: &mut [u32],
    up_diagonal: &mut [u32],
) -> Result<(), Refusal>
    ensures { TellsFlowLengths
        (catchment rows cols codes.now accumulation.now outlets.now)
        (length_grids down_straight.old down_diagonal.old up_straight.old
        up_diagonal.old) (number_told result)
        (length_grids down_straight.new down_diagonal.new up_straight.new
        up_diagonal.new) }
{
    let lengths = [
        accumulation.len(),
        down_straight.len(),
        down_diagonal.len(),
        up_straight.len(),
        up_diagonal.len(),
    ];
    check_outlets(rows, cols, codes, accumulation, outlets, &lengths)?;
    let mut grids = Grids {
        down_straight,
        down_diagonal,
        up_straight,
        up_diagonal,
    };
    give_all(Grid { rows, cols, codes }, outlets, &mut grids);
    Ok(())
}
