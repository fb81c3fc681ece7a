// A grid that is filled under its outlets.
use moves::Grid;

// A grid, its outlets, and the words of its cells: the subaccumulation, and above it the notes. What a search goes through.
#[derive(Clone, Copy)]
pub struct FilledGrid<'a> {
    pub grid: Grid<'a>,
    pub outlets: &'a [u32],
    pub subaccumulation: &'a [u32],
}
