// The tables of codes, each as the list of its codes: those of no direction, 0 for a null cell and 255 for a pond, then
// those of E, SE, S, SW, W, NW, N, NE.
#![tactic(auto)]

ghost use Rattle.std.specs.Prelude.{◌≡◌, ◌≤◌, length, get_or};
ghost use Rattle.lists.specs.Lists.{member, all_below};
ghost use Rattle.ground.specs.Tables.{table1, table_of, codes_of, is_code};
ghost use Rattle.tables.specs.Faults.{fault_of};
ghost use Rattle.tables.specs.Numbered.{the_table, Numbered};

use answers::Refusal;

// A table of codes.
#[derive(Clone, Copy)]
pub enum CodeTable {
    // 1, ours: powers of two, clockwise from east.
    Powers,
    // 2: 1 to 8, counter-clockwise from north-east.
    CounterClockwise,
    // 3: 1 to 8, clockwise from west.
    Clockwise,
}

impl CodeTable {
    // Its ten codes.
    pub fn codes(self) -> [u8; 10]
        ensures { result ≡ codes_of (the_table self) }
    {
        match self {
            CodeTable::Powers => [0, 255, 1, 2, 4, 8, 16, 32, 64, 128],
            CodeTable::CounterClockwise => [0, 255, 8, 7, 6, 5, 4, 3, 2, 1],
            CodeTable::Clockwise => [0, 255, 5, 6, 7, 8, 1, 2, 3, 4],
        }
    }
}

// 24: the table of a number.
impl TryFrom<u32> for CodeTable {
    type Error = Refusal;

    ghost try_from_gives = { Numbered };

    fn try_from(number: u32) -> Result<CodeTable, Refusal> {
        match number {
            1 => Ok(CodeTable::Powers),
            2 => Ok(CodeTable::CounterClockwise),
            3 => Ok(CodeTable::Clockwise),
            _ => Err(Refusal::Table),
        }
    }
}

// Table 1, in which all entries but the converter take their codes.
pub fn ours() -> [u8; 10]
    ensures { result ≡ codes_of table1 }
{
    CodeTable::Powers.codes()
}

// The codes of the table of a number; ours of a number that is no table's.
pub fn codes_of(number: u32) -> [u8; 10]
    ensures { result ≡ codes_of (table_of number) }
{
    CodeTable::try_from(number)
        .unwrap_or(CodeTable::Powers)
        .codes()
}

// 12: 0 for a code of the table, 1 for any other byte. No code ends the loop, so that several bytes can be looked at at
// once.
fn fault_of(table: &[u8; 10], code: u8) -> u8
    requires { length table.now ≡ 10 }
    ensures { result ≡ fault_of (member code table.now) }
{
    let mut fault = 1;
    for known in table {
        if *known == code {
            fault = 0;
        }
    }
    fault
}

// 12: are the first n bytes codes of the table? No byte ends the loop either.
pub fn all_codes(table: &[u8; 10], codes: &[u8], n: usize) -> bool
    requires { (length table.now ≡ 10) × (n ≤ length codes.now) }
    ensures { result ≡ all_below (λ x. member (get_or codes.now x 0) table.now) n }
{
    let mut worst = 0;
    for code in &codes[..n] {
        worst = worst.max(fault_of(table, *code));
    }
    worst == 0
}

// The same of our table, in which sheets have their codes.
pub fn all_ours(codes: &[u8], n: usize) -> bool
    requires { n ≤ length codes.now }
    ensures { result ≡ all_below (λ x. is_code table1 (get_or codes.now x 0)) n }
{
    all_codes(&ours(), codes, n)
}
