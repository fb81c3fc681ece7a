// What reading a sheet hands back, and the check that reading and writing both make.
#![tactic(auto)]

ghost use Rattle.std.specs.Prelude.{◌≡◌};
ghost use Rattle.spelling.specs.Reading.{is_sheet_side, are_sheet_sides};

// A sheet that was read: rows, columns and how many outlets there are.
#[derive(Clone, Copy)]
pub struct Sheet {
    pub rows: u32,
    pub cols: u32,
    pub outlets: u32,
}

// 2: is it a number of rows or of columns?
fn is_sheet_side(n: usize) -> bool
    ensures { result ≡ is_sheet_side n }
{
    (1..=64).contains(&n)
}

// 2: are both?
pub fn are_sheet_sides(rows: usize, cols: usize) -> bool
    ensures { result ≡ are_sheet_sides rows cols }
{
    is_sheet_side(rows) && is_sheet_side(cols)
}
