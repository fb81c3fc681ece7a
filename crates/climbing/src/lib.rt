// Through the subwatersheds of all outlets, each cell given its flow lengths: downstream from the cell below when it is
// entered, upstream to the cell below when it is left. Marks at the outlets keep the traversal of one subwatershed out
// of the next.
#![tactic(auto)]

ghost use Rattle.std.specs.Prelude.{◌≡◌, ◌*◌, ◌+◌, ◌<◌, length};
ghost use Rattle.moves.specs.Grids.{ground_of};
ghost use Rattle.downstream.specs.Offsets.{offsets_of};
ghost use Rattle.lengthgrids.specs.Grids.{held_by, SameGrids, GridsKept};
ghost use Rattle.climbing.specs.Giving.{Resting};
ghost use Rattle.climbing.specs.Grids.{Climbable};

use cells::split_number;
use downstream::offsets;
use lengthgrids::{Grids, give_down, give_up};
use moves::{Grid, step_of};
use traversal::{MARK, Position, below, moved, next_turn};

// Goes through the subwatershed of the outlet at a place of the list.
fn climb(grid: Grid, outlets: &[u32], steps: &[usize; 8], grids: &mut Grids<'_>, place: usize)
    requires climbable { Climbable grid outlets.now (held_by grids.old) }
    requires place_in_bounds { (place < length outlets.now) × (steps.now ≡ offsets_of grid.cols) }
    requires resting { Resting (ground_of grid) outlets.now place (held_by grids.old) }
    ensures same { SameGrids grids.old grids.new }
    ensures rests { Resting (ground_of grid.entry) outlets.now (place + 1) (held_by grids.new) }
    ensures keeps { GridsKept (grid.entry.rows * grid.entry.cols) (held_by grids.old) (held_by grids.new) }
{
    let mut p = Position {
        cell: split_number(grid.cols, outlets[place]),
        at: outlets[place] as usize,
        turn: 0,
    };
    loop {
        let x = p.at;
        match next_turn(grid, steps, grids.marks(), p) {
            Some(k) => {
                p = moved(grid, steps, p, k, 0);
                let step = step_of(grid.codes[p.at]);
                give_down(grids.down_straight, grids.down_diagonal, x, p.at, step);
            }
            None => {
                if MARK <= grids.down_diagonal[x] {
                    return;
                }
                p = below(grid, steps, p);
                let step = step_of(grid.codes[x]);
                give_up(grids.up_straight, grids.up_diagonal, x, p.at, step);
            }
        }
    }
}

// Goes through the subwatersheds of all outlets.
pub fn climb_all(grid: Grid, outlets: &[u32], grids: &mut Grids<'_>)
    requires climbable { Climbable grid outlets.now (held_by grids.old) }
    requires resting { Resting (ground_of grid) outlets.now 0 (held_by grids.old) }
    ensures same { SameGrids grids.old grids.new }
    ensures rests { Resting (ground_of grid.entry) outlets.now (length outlets.now) (held_by grids.new) }
    ensures keeps { GridsKept (grid.entry.rows * grid.entry.cols) (held_by grids.old) (held_by grids.new) }
{
    let steps = offsets(grid.cols);
    for j in 0..outlets.len() {
        climb(grid, outlets, &steps, grids, j);
    }
}
