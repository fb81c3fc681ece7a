// A grid that is lent.
ghost use Rattle.moves.specs.Lent.{LentGrid};

// The rows and columns of a grid, at most 4,096 each, and its codes: one for each cell, or more.
#[derive(Clone, Copy)]
pub struct Grid<'a> {
    pub rows: usize,
    pub cols: usize,
    pub codes: &'a [u8],
    pub ghost lent: { LentGrid rows cols codes.now },
}
