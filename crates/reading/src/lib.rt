// Reading a sheet, byte for byte (01, Sheet and desk).
#![tactic(auto)]

ghost use Rattle.std.specs.Prelude.{◌≡◌, ◌+◌, ◌*◌, ◌≤◌, ◌<◌, length, get_or, drop};
ghost use Rattle.std.proofs.lemmas.List.Edits.{sets};
ghost use Rattle.spelling.specs.Format.{mark};
ghost use Rattle.spelling.specs.Reading.{is_record, codes_from, outlets_from, sheet_told, read_answer, Reads};
ghost use Rattle.reading.specs.Steps.{NumberIs, row_says, rows_say, record_says, tail_says, records_answer};

use answers::Refusal;
use lists::copy;
use spelling::{Sheet, are_sheet_sides};
use tables::all_ours;

// A place in a file, in bytes from its start.
#[derive(Clone, Copy)]
struct Cursor {
    at: usize,
}

impl Cursor {
    // Does a whole record of so many bytes stand here, with this mark?
    fn is_record(self, file: &[u8], letters: &[u8; 2], size: usize) -> bool
        requires { (2 ≤ size) × (self.at ≤ length file.now) }
        ensures { result ≡ is_record (mark (get_or letters.now 0 0) (get_or letters.now 1 0)) size (drop self.at file.now) }
    {
        let rest = &file[self.at..];
        size <= rest.len() && rest.starts_with(letters)
    }

    // The number that begins so many bytes from here, low byte first.
    fn number(self, file: &[u8], skip: usize) -> usize
        requires { self.at + skip + 2 ≤ length file.now }
        ensures { NumberIs skip (drop self.at file.now) result }
    {
        let low = self.at + skip;
        usize::from(u16::from_le_bytes([file[low], file[low + 1]]))
    }
}

// A row, and the place after it: 4, 5.
fn row_at(file: &[u8], here: Cursor, row: usize, cols: usize) -> Result<Cursor, Refusal>
    requires { (here.at ≤ length file.now) × (cols ≤ 64) }
    ensures { row_says file.now cols row here.at result }
{
    if !here.is_record(file, b"RW", 4 + cols) || here.number(file, 2) != row {
        return Err(Refusal::Row);
    }
    let start = here.at + 4;
    let end = start + cols;
    if !all_ours(&file[start..end], cols) {
        return Err(Refusal::SheetCode);
    }
    Ok(Cursor { at: end })
}

// All rows, each in turn, and the place after them: 4, 5.
fn rows_from(file: &[u8], rows: usize, cols: usize) -> Result<Cursor, Refusal>
    requires { (6 ≤ length file.now) × (rows ≤ 64) × (cols ≤ 64) }
    ensures { rows_say file.now rows cols result }
{
    let mut here = Cursor { at: 6 };
    for row in 0..rows {
        here = row_at(file, here, row, cols)?;
    }
    Ok(here)
}

// A record after the rows: an outlet, and the place after it, or the end: 6, 7, 9.
fn record_at(file: &[u8], here: Cursor, rows: usize, cols: usize) -> Result<Option<Cursor>, Refusal>
    requires { here.at ≤ length file.now }
    ensures { record_says file.now rows cols here.at result }
{
    if here.is_record(file, b"EN", 2) {
        if file.len() - here.at != 2 {
            return Err(Refusal::AfterEnd);
        }
        return Ok(None);
    }
    if !here.is_record(file, b"OT", 6) {
        return Err(Refusal::Record);
    }
    if here.number(file, 2) >= rows || here.number(file, 4) >= cols {
        return Err(Refusal::OutletOutside);
    }
    Ok(Some(Cursor { at: here.at + 6 }))
}

// How many outlets stand after the rows, each in turn, before the end: 6, 7, 8, 9.
fn tail_from(file: &[u8], start: Cursor, rows: usize, cols: usize) -> Result<u32, Refusal>
    requires { start.at ≤ length file.now }
    ensures { tail_says file.now rows cols start.at result }
{
    let mut here = start;
    for count in 0..=256 {
        let Some(next) = record_at(file, here, rows, cols)? else {
            return Ok(count);
        };
        here = next;
    }
    Err(Refusal::OutletCount)
}

// Judges all that follows the header: 4 to 9.
fn judge_records(file: &[u8], rows: usize, cols: usize) -> Result<Sheet, Refusal>
    requires { (6 ≤ length file.now) × (rows ≤ 64) × (cols ≤ 64) }
    ensures { sheet_told result ≡ records_answer file.now rows cols }
{
    let tail = rows_from(file, rows, cols)?;
    let outlets = tail_from(file, tail, rows, cols)?;
    Ok(Sheet {
        rows: rows as u32,
        cols: cols as u32,
        outlets,
    })
}

// Judges a whole file, for so many places in the grid and in the list: 1 to 9.
fn judge(file: &[u8], grid: usize, list: usize) -> Result<Sheet, Refusal>
    ensures { sheet_told result ≡ read_answer file.now grid list }
{
    let start = Cursor { at: 0 };
    if !start.is_record(file, b"D8", 6) {
        return Err(Refusal::Header);
    }
    let rows = start.number(file, 2);
    let cols = start.number(file, 4);
    if !are_sheet_sides(rows, cols) {
        return Err(Refusal::SheetSides);
    }
    if grid < rows * cols || list < 256 {
        return Err(Refusal::SheetRoom);
    }
    judge_records(file, rows, cols)
}

// Stores the codes of all rows.
fn store_codes(file: &[u8], rows: usize, cols: usize, codes: &mut [u8])
    requires { (6 + rows * (4 + cols) ≤ length file.now) × (rows * cols ≤ length codes.old) }
    ensures { codes.new
        ≡ sets codes.old 0 (codes_from cols rows (drop 6 file.now)) }
{
    let mut at = 6;
    for row in 0..rows {
        let start = at + 4;
        let end = start + cols;
        copy(&file[start..end], codes, row * cols);
        at = end;
    }
}

// Stores so many outlets, as cell numbers.
fn store_outlets(file: &[u8], start: Cursor, cols: usize, count: usize, outlets: &mut [u32])
    requires { (start.at + 6 * count ≤ length file.now) × (count ≤ length outlets.old) × (cols ≤ 64) }
    ensures { outlets.new
        ≡ sets outlets.old 0 (outlets_from cols count (drop start.at file.now)) }
{
    let mut here = start;
    for outlet in &mut outlets[..count] {
        *outlet = (here.number(file, 2) * cols + here.number(file, 4)) as u32;
        here = Cursor { at: here.at + 6 };
    }
}

// Reads a sheet: 1 to 9. The whole file is judged before anything is stored.
pub fn read(file: &[u8], codes: &mut [u8], outlets: &mut [u32]) -> Result<Sheet, Refusal>
    ensures { Reads file.now codes.old outlets.old result
        codes.new outlets.new }
{
    let sheet = judge(file, codes.len(), outlets.len())?;
    let rows = sheet.rows as usize;
    let cols = sheet.cols as usize;
    let tail = Cursor {
        at: 6 + rows * (4 + cols),
    };
    store_codes(file, rows, cols, codes);
    store_outlets(file, tail, cols, sheet.outlets as usize, outlets);
    Ok(sheet)
}
