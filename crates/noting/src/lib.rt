// The lent subaccumulation grid made ready for searches by an edition, and as it was after them. Edition 1 asks for
// nothing; by edition 2 outlets and enclosed cells are noted.
#![tactic(auto)]

ghost use Rattle.std.specs.Prelude.{◌≤◌, length};
ghost use Rattle.noting.specs.Noting.{Unnoted};
ghost use Rattle.noting.specs.Grids.{Fresh, Places, Readied};

use divide::{clear_notes, note_enclosed, note_outlets};
use moves::Grid;

// Makes the grid ready for the searches of the outlets from one place of the list to before another. Their cells are
// listed in the working space.
pub fn make_ready(
    edition: u32,
    grid: Grid,
    outlets: &[u32],
    first: usize,
    end: usize,
    subaccumulation: &mut [u32],
    list: &mut [u32],
)
    requires fresh { Fresh grid outlets.now subaccumulation.old }
    requires places { Places grid outlets.now first end list.old }
    ensures { Readied edition grid.entry outlets.now first end subaccumulation.old list.old
        subaccumulation.new list.new }
{
    if edition != 2 {
        return;
    }
    note_outlets(grid.rows * grid.cols, outlets, subaccumulation);
    for j in first..end {
        note_enclosed(grid, outlets, j, subaccumulation, list);
    }
}

// Takes the notes of the first n words away.
pub fn make_plain(edition: u32, n: usize, subaccumulation: &mut [u32])
    requires { n ≤ length subaccumulation.old }
    ensures { Unnoted edition n subaccumulation.old subaccumulation.new }
{
    if edition == 2 {
        clear_notes(n, subaccumulation);
    }
}
