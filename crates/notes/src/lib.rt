// The editions, and the words of the lent subaccumulation grid while a tracing is at work: a cell's
// subaccumulation, at most 2^24, and above it three notes.
#![tactic(auto)]

ghost use Rattle.std.specs.Prelude.{◌≡◌};
ghost use Rattle.notes.specs.Notes.{cells_held, met_by, OfNumber};

use answers::Refusal;

// An edition of the standard.
#[derive(Clone, Copy, PartialEq, Eq)]
pub enum Edition {
    First,
    Second,
}

// By its number; another number is refused.
impl TryFrom<u32> for Edition {
    type Error = Refusal;

    ghost try_from_gives = { OfNumber };

    fn try_from(number: u32) -> Result<Self, Refusal> {
        match number {
            1 => Ok(Edition::First),
            2 => Ok(Edition::Second),
            _ => Err(Refusal::Edition),
        }
    }
}

// The cell is an outlet.
pub const OUTLET: u32 = 536870912;

// The cell is enclosed: in its subwatershed and not on the divide.
pub const ENCLOSED: u32 = 1073741824;

// The cell is inside the subwatershed at hand.
pub const INSIDE: u32 = 2147483648;

// The subaccumulation that a word holds.
pub fn cells_held(word: u32) -> u32
    ensures { result ≡ cells_held word }
{
    word % OUTLET
}

// Is a length met at a cell with this word? By edition 1, without notes, at a headwater, by edition 2 where the cell is
// not enclosed.
pub fn is_met(edition: u32, word: u32) -> bool
    ensures { result ≡ met_by edition word }
{
    let end = if edition == 2 { ENCLOSED } else { 2 };
    word < end
}
