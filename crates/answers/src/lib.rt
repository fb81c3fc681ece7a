// Why a call is refused, and the answer of a tracing; both also in numbers.
#![tactic(auto)]

ghost use Rattle.std.specs.Prelude.{◌≡◌};
ghost use Rattle.answers.specs.Answers.{in_numbers};
ghost use Rattle.answers.specs.Refusals.{refusal_number, number_told};

// The check that fails, named by what is wrong, with its number in 01 and 02.
#[derive(Clone, Copy, PartialEq, Eq)]
pub enum Refusal {
    // 1: no whole header record.
    Header,
    // 2: a sheet's rows or columns.
    SheetSides,
    // 3: too few places for the codes or the outlets of a sheet.
    SheetRoom,
    // 4: not the record of the next row.
    Row,
    // 5: a code in a sheet.
    SheetCode,
    // 6: neither an outlet's record nor the end.
    Record,
    // 7: an outlet outside the sheet.
    OutletOutside,
    // 8: more than 256 outlets in a sheet.
    OutletCount,
    // 9: bytes after the end.
    AfterEnd,
    // 10: a grid's rows or columns.
    Sides,
    // 11: a lent grid has too few places.
    GridRoom,
    // 12: a code in a grid.
    Code,
    // 13: a ring.
    Ring,
    // 14: the accumulation does not agree.
    Accumulation,
    // 15: no outlet, or more than 256.
    NoOutlets,
    // 16: an outlet that is no cell of ground.
    OutletOffGround,
    // 17: an outlet that stands in the list twice.
    OutletTwice,
    // 18: a place beyond the list of outlets.
    Place,
    // 19: more cells than recursion takes.
    TooManyCells,
    // 20: too little working space.
    WorkingSpace,
    // 21: too few places for the starts.
    StartsRoom,
    // 22: a start outside the subwatershed.
    Start,
    // 23: too few places for what is to be written.
    Room,
    // 24: no number of a table.
    Table,
    // 25: no number of an edition.
    Edition,
}

impl Refusal {
    // Its number.
    pub fn number(self) -> u32
        ensures { result ≡ refusal_number self }
    {
        match self {
            Refusal::Header => 1,
            Refusal::SheetSides => 2,
            Refusal::SheetRoom => 3,
            Refusal::Row => 4,
            Refusal::SheetCode => 5,
            Refusal::Record => 6,
            Refusal::OutletOutside => 7,
            Refusal::OutletCount => 8,
            Refusal::AfterEnd => 9,
            Refusal::Sides => 10,
            Refusal::GridRoom => 11,
            Refusal::Code => 12,
            Refusal::Ring => 13,
            Refusal::Accumulation => 14,
            Refusal::NoOutlets => 15,
            Refusal::OutletOffGround => 16,
            Refusal::OutletTwice => 17,
            Refusal::Place => 18,
            Refusal::TooManyCells => 19,
            Refusal::WorkingSpace => 20,
            Refusal::StartsRoom => 21,
            Refusal::Start => 22,
            Refusal::Room => 23,
            Refusal::Table => 24,
            Refusal::Edition => 25,
        }
    }
}

// The number of an answer that says no more: 0 where the call is accepted.
pub fn number_told(answer: Result<(), Refusal>) -> u32
    ensures { result ≡ number_told answer }
{
    match answer {
        Ok(()) => 0,
        Err(refusal) => refusal.number(),
    }
}

// What became of a tracing. Found: the length of the longest paths and how many there are. NoPlace: the list was too
// short for them, and how many there are. Refused: the number of another check.
#[derive(Clone, Copy)]
pub enum Answer {
    Found {
        straight: u32,
        diagonal: u32,
        paths: u32,
    },
    NoPlace {
        paths: u32,
    },
    Refused {
        number: u32,
    },
}

// The answer, and beside it how many cells were visited and dropped.
#[derive(Clone, Copy)]
pub struct Traced {
    pub visited: u32,
    pub dropped: u32,
    pub answer: Answer,
}

// An answer in numbers: 0 where paths are found, 21 where the list was too short, else the number of the refusal; and
// the values that it has. The others are 0.
#[derive(Clone, Copy)]
pub struct Numbers {
    pub number: u32,
    pub straight: u32,
    pub diagonal: u32,
    pub paths: u32,
}

// An answer in numbers.
pub fn in_numbers(answer: Answer) -> Numbers
    ensures { result ≡ in_numbers answer }
{
    match answer {
        Answer::Found {
            straight,
            diagonal,
            paths,
        } => Numbers {
            number: 0,
            straight,
            diagonal,
            paths,
        },
        Answer::NoPlace { paths } => Numbers {
            number: 21,
            straight: 0,
            diagonal: 0,
            paths,
        },
        Answer::Refused { number } => Numbers {
            number,
            straight: 0,
            diagonal: 0,
            paths: 0,
        },
    }
}
