// The desk's whole answer to a file, as text in lent bytes.
#![tactic(auto)]

ghost use Rattle.std.specs.Prelude.{◌≡◌, ◌≤◌, ◌<◌, length, take, get_or};
ghost use Rattle.lists.specs.Slices.{zeros};
ghost use Rattle.answers.specs.Entries.{catchment};
ghost use Rattle.answers.specs.Tracings.{lent};
ghost use Rattle.lines.specs.Appending.{Appends, Holds, HoldsWhole};
ghost use Rattle.spelling.specs.Content.{content};
ghost use Rattle.report.specs.Desk.{Tells, number_at, numbers_from, first_number, path_lines, traced_lines};
ghost use Rattle.report.specs.Desk.{outlet_lines, outlets_lines, tracing_number, sheet_text, desk_text, file_bytes};

use accumulation::accumulate;
use answers::{Answer, Traced, in_numbers};
use cells::count_off;
use lines::{OutletLine, put_catchment, put_outlet, put_path, put_refused};
use reading::read;
use spelling::Sheet;
use stack::NUMBERS_EACH;
use tracing::trace_by_stack;

// The bytes that the desk program lends for a file, which are more than the longest sheet has, and for its text.
const FILE_BYTES: usize = 8192;

pub const TEXT_BYTES: usize = 81920;

// The desk's place for the bytes of a file, started at zero.
pub fn file_place() -> [u8; FILE_BYTES]
    ensures { result ≡ zeros file_bytes }
{
    [0; FILE_BYTES]
}

// The numbers of working space, enough for a subwatershed of 4,096 cells.
const WORKING: usize = NUMBERS_EACH * 4096;

// Is the outlet at a place traced? If not, the number with which it is refused.
// The refusal is a number, as `Answer::Refused` has it, and the working space is arrays: a rule of the project, no heap.
fn check_outlet(
    rows: usize,
    cols: usize,
    codes: &[u8],
    accumulation: &[u32],
    outlets: &[u32],
    place: usize,
) -> Result<(), u32>
    ensures { Tells (number_at
        (catchment rows cols codes.now accumulation.now outlets.now) place) result }
{
    let mut subaccumulation = [0u32; 4096];
    let mut starts = [0u32; 4096];
    let mut work = [0u32; WORKING];
    let t = trace_by_stack(
        1,
        rows,
        cols,
        codes,
        accumulation,
        outlets,
        place,
        true,
        &mut subaccumulation,
        &mut starts,
        &mut work,
    );
    match in_numbers(t.answer).number {
        0 => Ok(()),
        number => Err(number),
    }
}

// Are all outlets? If not, the number of the first that is refused.
fn check_each(
    rows: usize,
    cols: usize,
    codes: &[u8],
    accumulation: &[u32],
    outlets: &[u32],
) -> Result<(), u32>
    ensures { Tells (first_number (numbers_from
        (catchment rows cols codes.now accumulation.now outlets.now)
        0 (length outlets.now))) result }
{
    for place in 0..outlets.len() {
        check_outlet(rows, cols, codes, accumulation, outlets, place)?;
    }
    Ok(())
}

// The same, but the first place is asked for even where there is none.
fn check_tracing(
    rows: usize,
    cols: usize,
    codes: &[u8],
    accumulation: &[u32],
    outlets: &[u32],
) -> Result<(), u32>
    ensures { Tells (tracing_number
        (catchment rows cols codes.now accumulation.now outlets.now)) result }
{
    check_outlet(rows, cols, codes, accumulation, outlets, 0)?;
    check_each(rows, cols, codes, accumulation, outlets)
}

// The first n places of a list, or all of them where there are fewer.
fn first_of<'a>(list: &'a [u32], n: u32) -> &'a [u32]
    ensures { result.now ≡ take n list.now }
{
    let k = list.len().min(n as usize);
    &list[..k]
}

// The number at a place of a list, and 0 beyond it.
fn value_at(list: &[u32], place: u32) -> u32
    ensures { result ≡ get_or list.now place 0 }
{
    list.get(place as usize).copied().unwrap_or(0)
}

// A line for each start, by its row and column.
fn put_starts(text: &mut [u8], at: usize, cols: u32, starts: &[u32]) -> usize
    requires { 0 < cols }
    ensures { Appends (path_lines cols starts.now) at text.old result text.new }
{
    let mut to = at;
    for &start in starts {
        let cell = count_off(cols, start);
        to = put_path(text, to, cell.row, cell.col);
    }
    to
}

// The lines of an outlet that was traced: its own and one for each start.
fn put_traced(
    text: &mut [u8],
    at: usize,
    cols: u32,
    place: u32,
    cell: u32,
    t: Traced,
    subaccumulation: &[u32],
    starts: &[u32],
) -> usize
    requires { (0 < cols) × (place < 256) }
    ensures { Appends
        (traced_lines cols place cell t (lent subaccumulation.now starts.now))
        at text.old result text.new }
{
    let Answer::Found {
        straight,
        diagonal,
        paths,
    } = t.answer
    else {
        return at;
    };
    let outlet = count_off(cols, cell);
    let line = OutletLine {
        place: place + 1,
        row: outlet.row,
        col: outlet.col,
        cells: value_at(subaccumulation, cell),
        straight,
        diagonal,
        paths,
        visited: t.visited,
        dropped: t.dropped,
    };
    let to = put_outlet(text, at, line);
    put_starts(text, to, cols, first_of(starts, paths))
}

// The lines of the outlet at a place, which is traced by stack with dropping.
fn put_outlet_at(
    text: &mut [u8],
    at: usize,
    rows: usize,
    cols: u32,
    codes: &[u8],
    accumulation: &[u32],
    outlets: &[u32],
    place: u32,
) -> usize
    requires { (0 < cols) × (place < 256) }
    ensures { Appends (outlet_lines
        (catchment rows cols codes.now accumulation.now outlets.now) place)
        at text.old result text.new }
{
    let mut subaccumulation = [0u32; 4096];
    let mut starts = [0u32; 4096];
    let mut work = [0u32; WORKING];
    let t = trace_by_stack(
        1,
        rows,
        cols as usize,
        codes,
        accumulation,
        outlets,
        place as usize,
        true,
        &mut subaccumulation,
        &mut starts,
        &mut work,
    );
    let cell = value_at(outlets, place);
    put_traced(text, at, cols, place, cell, t, &subaccumulation, &starts)
}

// The lines of all outlets.
fn put_outlets(
    text: &mut [u8],
    at: usize,
    rows: usize,
    cols: u32,
    codes: &[u8],
    accumulation: &[u32],
    outlets: &[u32],
) -> usize
    requires { (0 < cols) × (length outlets.now ≤ 256) }
    ensures { Appends (outlets_lines
        (catchment rows cols codes.now accumulation.now outlets.now)
        0 (length outlets.now)) at text.old result text.new }
{
    let mut to = at;
    for place in 0..outlets.len() as u32 {
        to = put_outlet_at(text, to, rows, cols, codes, accumulation, outlets, place);
    }
    to
}

// What is said of a sheet that was read.
fn report_sheet(text: &mut [u8], sheet: Sheet, codes: &[u8], outlets: &[u32]) -> usize
    requires { (0 < sheet.cols) × (length outlets.now ≤ 256) }
    ensures { Appends
        (sheet_text (content sheet.rows sheet.cols codes.now outlets.now) sheet.outlets)
        0 text.old result text.new }
{
    let rows = sheet.rows as usize;
    let cols = sheet.cols as usize;
    let mut accumulation = [0u32; 4096];
    if let Err(refusal) = accumulate(rows, cols, codes, &mut accumulation) {
        return put_refused(text, 0, refusal.number());
    }
    if let Err(number) = check_tracing(rows, cols, codes, &accumulation, outlets) {
        return put_refused(text, 0, number);
    }
    let at = put_catchment(text, 0, sheet.rows, sheet.cols, sheet.outlets);
    put_outlets(text, at, rows, sheet.cols, codes, &accumulation, outlets)
}

// What the desk prints for a file, put into lent bytes, as much of it as there is room for; how much is handed back.
fn put_report(file: &[u8], text: &mut [u8]) -> usize
    ensures { Holds (desk_text file.now) text.old result text.new }
{
    let mut codes = [0u8; 4096];
    let mut outlets = [0u32; 256];
    match read(file, &mut codes, &mut outlets) {
        Ok(sheet) => report_sheet(text, sheet, &codes, first_of(&outlets, sheet.outlets)),
        Err(refusal) => put_refused(text, 0, refusal.number()),
    }
}

// What the desk prints for a file. The lent bytes have room for any file's text, so that no line is ever lost; how many
// of them hold it is handed back.
pub fn report(file: &[u8], text: &mut [u8; TEXT_BYTES]) -> usize
    ensures { HoldsWhole (desk_text file.now) text.old result text.new }
{
    put_report(file, text)
}
