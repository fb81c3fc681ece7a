// The four grids of flow lengths: cleared and marked, and a cell's length given to the cell above it or below it. The
// marks of the outlets stand in the grid of diagonal steps downstream.
#![tactic(auto)]

ghost use Rattle.std.specs.Prelude.{◌≡◌, ◌≤◌, ◌<◌, ◌^◌, length, get_or};
ghost use Rattle.lists.specs.Slices.{Within};
ghost use Rattle.lengthgrids.specs.Grids.{held_by, SameGrids, MarkedWith, Room, Prepared, Countable, GivesDown, GivesUp};

use lengths::{Length, Step};
use lists::clear;
use traversal::MARK;

// The grids of straight and diagonal steps downstream, and of those upstream.
#[derive(Drop)]
pub struct Grids<'a> {
    pub down_straight: &'a mut [u32],
    pub down_diagonal: &'a mut [u32],
    pub up_straight: &'a mut [u32],
    pub up_diagonal: &'a mut [u32],
}

// Puts a number in the place of each outlet.
pub fn mark(n: usize, outlets: &[u32], marks: &mut [u32], to: u32)
    requires { (n ≤ length marks.old) × Within n outlets.now }
    ensures { MarkedWith n outlets.now (length outlets.now) to marks.old
        marks.new }
{
    for at in outlets {
        marks[*at as usize] = to;
    }
}

impl Grids<'_> {
    // The grid that the outlets are marked in.
    pub fn marks(&self) -> &[u32]
        ensures { result.now ≡ self.now.down_diagonal.now }
    {
        self.down_diagonal
    }

    // Clears the places of the cells and marks the outlets.
    pub fn prepare(&mut self, n: usize, outlets: &[u32])
        requires { Room n (held_by self.old) × Within n outlets.now }
        ensures same { SameGrids self.old self.new }
        ensures prepared { Prepared n outlets.now (held_by self.old) (held_by self.new) }
    {
        clear(n, self.down_straight);
        clear(n, self.down_diagonal);
        clear(n, self.up_straight);
        clear(n, self.up_diagonal);
        mark(n, outlets, self.down_diagonal, MARK);
    }
}

// Gives the cell y above x its downstream length.
pub fn give_down(straights: &mut [u32], diagonals: &mut [u32], x: usize, y: usize, step: Step)
    requires { Countable x y straights.old diagonals.old }
    ensures { GivesDown x y step straights.old diagonals.old straights.new
        diagonals.new }
{
    let below = Length {
        straight: straights[x],
        diagonal: diagonals[x] % MARK,
    };
    let own = below.plus(step);
    straights[y] = own.straight;
    diagonals[y] = own.diagonal;
}

// Gives the cell y below x the upstream length that it has by x, if that is longer than what it has.
pub fn give_up(straights: &mut [u32], diagonals: &mut [u32], x: usize, y: usize, step: Step)
    requires { Countable x y straights.old diagonals.old × (get_or diagonals.old x 0 < 2 ^ 31) }
    ensures { GivesUp x y step straights.old diagonals.old straights.new
        diagonals.new }
{
    let above = Length {
        straight: straights[x],
        diagonal: diagonals[x],
    };
    let longer = above.plus(step);
    let own = Length {
        straight: straights[y],
        diagonal: diagonals[y],
    };
    if own.compare(longer).is_lt() {
        straights[y] = longer.straight;
        diagonals[y] = longer.diagonal;
    }
}
