// Grids of other packages: codes from one table to another.
#![tactic(auto)]

ghost use Rattle.std.specs.Prelude.{◌≡◌};
ghost use Rattle.answers.specs.Converting.{conversion, Converts};
ghost use Rattle.answers.specs.Refusals.{number_told};
ghost use Rattle.converting.specs.Rewriting.{counterpart, Pairs, Readable, Rewritten};

use answers::Refusal;
use checks::check_grid_in;
use tables::CodeTable;

// The code of one table at the place where the other has this code. No code ends the loop, so that several can be
// converted at once.
fn counterpart_of(from: &[u8; 10], to: &[u8; 10], code: u8) -> u8
    requires { Pairs from.now to.now }
    ensures { result ≡ counterpart 10 from.now to.now code }
{
    let mut found = 0;
    for (k, known) in from.iter().enumerate() {
        if *known == code {
            found = to[k];
        }
    }
    found
}

// Writes the counterpart of each of the first n codes.
fn rewrite(from: &[u8; 10], to: &[u8; 10], n: usize, codes: &[u8], converted: &mut [u8])
    requires { Readable n from.now to.now codes.now converted.old }
    ensures { Rewritten n n from.now to.now codes.now converted.old
        converted.new }
{
    for at in 0..n {
        converted[at] = counterpart_of(from, to, codes[at]);
    }
}

// ENTRY. The codes of a grid in another table, by the numbers of the two tables. Checks 24, 10, 11 of two grids, 12;
// refused, nothing changes.
pub fn convert(
    from: u32,
    to: u32,
    rows: usize,
    cols: usize,
    codes: &[u8],
    converted: &mut [u8],
) -> Result<(), Refusal>
    ensures { Converts (conversion from to rows cols codes.now) converted.old
        (number_told result) converted.new }
{
    let source = CodeTable::try_from(from)?.codes();
    let target = CodeTable::try_from(to)?.codes();
    check_grid_in(&source, rows, cols, codes, &[converted.len()])?;
    rewrite(&source, &target, rows * cols, codes, converted);
    Ok(())
}
