// Writing a sheet, byte for byte (01, Sheet and desk).
#![tactic(auto)]

ghost use Rattle.std.specs.Prelude.{◌≡◌, List, [], ◌∷◌, ◌++◌, ℕ, ◌+◌, ◌*◌, ◌≤◌, ◌<◌, length, get_or, ltb};
ghost use Rattle.std.proofs.lemmas.List.Edits.{sets};
ghost use Rattle.answers.specs.Refusals.{number_told};
ghost use Rattle.answers.specs.Checks.{first_failed, all_pass};
ghost use Rattle.spelling.specs.Content.{content};
ghost use Rattle.spelling.specs.Format.{two_bytes, row_record, row_records, outlet_records, spelling};
ghost use Rattle.spelling.specs.Writing.{content_checks, written_told, write_number, write_answer, Writes};
ghost use Rattle.writing.specs.Puts.{Puts};

use answers::Refusal;
use cells::split_number;
use lists::copy;
use spelling::are_sheet_sides;
use tables::all_ours;

// 7: is each outlet a cell number?
fn are_cells(outlets: &[u32], cells: usize) -> bool
    ensures { result ≡ all_pass (λ o. ltb o cells) outlets.now }
{
    outlets.iter().all(|&outlet| (outlet as usize) < cells)
}

// Judges a content: 2, 3, 5, 8, 7.
fn check_content(rows: usize, cols: usize, codes: &[u8], outlets: &[u32]) -> Result<(), Refusal>
    ensures { number_told result ≡ first_failed (content_checks (content rows cols codes.now outlets.now)) }
{
    if !are_sheet_sides(rows, cols) {
        return Err(Refusal::SheetSides);
    }
    let cells = rows * cols;
    if codes.len() < cells {
        return Err(Refusal::SheetRoom);
    }
    if !all_ours(codes, cells) {
        return Err(Refusal::SheetCode);
    }
    if outlets.len() > 256 {
        return Err(Refusal::OutletCount);
    }
    if !are_cells(outlets, cells) {
        return Err(Refusal::OutletOutside);
    }
    Ok(())
}

// Judges a content and the room for its file, in bytes, and answers with the file's length: 2, 3, 5, 8, 7, 23.
fn judge_content(
    rows: usize,
    cols: usize,
    codes: &[u8],
    outlets: &[u32],
    room: usize,
) -> Result<u32, Refusal>
    ensures { (file : List ℕ) → length file ≡ room
        → written_told result ≡ write_answer (content rows cols codes.now outlets.now) file }
{
    check_content(rows, cols, codes, outlets)?;
    let length = 8 + rows * (4 + cols) + 6 * outlets.len();
    if room < length {
        return Err(Refusal::Room);
    }
    Ok(length as u32)
}

// Puts bytes at a place; the answer is the place after them.
fn put(file: &mut [u8], at: usize, bytes: &[u8]) -> usize
    requires { at + length bytes.now ≤ length file.old }
    ensures { Puts bytes.now at file.old result file.new }
{
    copy(bytes, file, at);
    at + bytes.len()
}

// Puts a number, low byte first.
fn put_number(file: &mut [u8], at: usize, n: usize) -> usize
    requires { (at + 2 ≤ length file.old) × (n < 65536) }
    ensures { Puts (two_bytes n) at file.old result file.new }
{
    put(file, at, &(n as u16).to_le_bytes())
}

// Puts a record of two numbers, with this mark.
fn put_pair(file: &mut [u8], at: usize, mark: &[u8; 2], a: usize, b: usize) -> usize
    requires { (at + 6 ≤ length file.old) × (a < 65536) × (b < 65536) }
    ensures { Puts (mark.now ++ (two_bytes a ++ two_bytes b)) at file.old
        result file.new }
{
    let after = put(file, at, mark);
    let middle = put_number(file, after, a);
    put_number(file, middle, b)
}

// Puts the record of a row.
fn put_row(file: &mut [u8], at: usize, row: usize, codes: &[u8]) -> usize
    requires { (at + (4 + length codes.now) ≤ length file.old) × (row < 65536) }
    ensures { Puts (row_record row codes.now) at file.old
        result file.new }
{
    let after = put(file, at, b"RW");
    let start = put_number(file, after, row);
    put(file, start, codes)
}

// Puts all rows, after the header.
fn put_rows(file: &mut [u8], codes: &[u8], rows: usize, cols: usize) -> usize
    requires { (6 + rows * (4 + cols) ≤ length file.old) × (rows * cols ≤ length codes.now) × (rows ≤ 64) }
    ensures { Puts (row_records cols 0 rows codes.now) 6 file.old result file.new }
{
    let mut at = 6;
    for row in 0..rows {
        let start = row * cols;
        at = put_row(file, at, row, &codes[start..start + cols]);
    }
    at
}

// Puts all outlets.
fn put_outlets(file: &mut [u8], start: usize, outlets: &[u32], cols: usize) -> usize
    requires { (start + 6 * length outlets.now ≤ length file.old) × (0 < cols)
        × ((k : ℕ) → k < length outlets.now → get_or outlets.now k 0 < 65536) }
    ensures { Puts (outlet_records cols outlets.now) start file.old
        result file.new }
{
    let mut at = start;
    for &outlet in outlets {
        let cell = split_number(cols, outlet);
        at = put_pair(file, at, b"OT", cell.row, cell.col);
    }
    at
}

// Puts a whole sheet.
fn put_sheet(rows: usize, cols: usize, codes: &[u8], outlets: &[u32], file: &mut [u8])
    requires { write_number (content rows cols codes.now outlets.now) file.old ≡ 0 }
    ensures { file.new
        ≡ sets file.old 0 (spelling (content rows cols codes.now outlets.now)) }
{
    put_pair(file, 0, b"D8", rows, cols);
    let tail = put_rows(file, codes, rows, cols);
    let end = put_outlets(file, tail, outlets, cols);
    put(file, end, b"EN");
}

// Writes a sheet, and answers with the length of its file in bytes: 2, 3, 5, 8, 7, 23. The content and the room are
// judged before a byte is written.
#[tactic(auto, using(crate::proofs::WholeSheet::nothing_written, answers::proofs::Refusals::has_number))]
pub fn write(
    rows: usize,
    cols: usize,
    codes: &[u8],
    outlets: &[u32],
    file: &mut [u8],
) -> Result<u32, Refusal>
    ensures { Writes (content rows cols codes.now outlets.now) file.old
        result file.new }
{
    let length = judge_content(rows, cols, codes, outlets, file.len())?;
    put_sheet(rows, cols, codes, outlets, file);
    Ok(length)
}
