// The library's entries for programs in C: each slice is a pointer and a count of elements, and each function but
// jb_starts_of returns the refusal number. Places for results are written on every call. Slices of one call must not
// overlap.
#![tactic(auto)]

ghost use Rattle.std.specs.Prelude.{◌≡◌};
ghost use Rattle.ground.specs.Grid.{grid_of};
ghost use Rattle.answers.specs.Entries.{catchment, Accumulates, check_number, Subaccumulates};
ghost use Rattle.answers.specs.FlowLengths.{length_grids, TellsFlowLengths};
ghost use Rattle.answers.specs.Converting.{conversion, Converts};
ghost use Rattle.answers.specs.Tracings.{call_of, lent};
ghost use Rattle.alloutlets.specs.AllOutlets.{lent_all};
ghost use Rattle.answers.specs.Drawing.{drawing_of};
ghost use Rattle.spelling.specs.Content.{content};
ghost use Rattle.host.specs.Results.{non_zero, InNumbers, RecursionInC, StackInC, DrawingInC, ReadingInC};
ghost use Rattle.host.specs.Results.{AllInC, PartInC, WritingInC};

use answers::{Traced, in_numbers, number_told};

#[unsafe(no_mangle)]
pub extern "C" fn jb_accumulate(
    rows: usize,
    cols: usize,
    codes: &[u8],
    accumulation: &mut [u32],
) -> u32
    ensures { Accumulates (grid_of rows cols codes.now) accumulation.old result
        accumulation.new }
{
    number_told(accumulation::accumulate(rows, cols, codes, accumulation))
}

#[unsafe(no_mangle)]
pub extern "C" fn jb_check_accumulation(
    rows: usize,
    cols: usize,
    codes: &[u8],
    accumulation: &[u32],
) -> u32
    ensures { result ≡ check_number (grid_of rows cols codes.now) accumulation.now }
{
    number_told(accumulation::check_accumulation(rows, cols, codes, accumulation))
}

#[unsafe(no_mangle)]
pub extern "C" fn jb_subaccumulate(
    rows: usize,
    cols: usize,
    codes: &[u8],
    accumulation: &[u32],
    outlets: &[u32],
    subaccumulation: &mut [u32],
) -> u32
    ensures { Subaccumulates
        (catchment rows cols codes.now accumulation.now outlets.now)
        subaccumulation.old result subaccumulation.new }
{
    number_told(accumulation::subaccumulate(
        rows,
        cols,
        codes,
        accumulation,
        outlets,
        subaccumulation,
    ))
}

#[unsafe(no_mangle)]
pub extern "C" fn jb_flow_lengths(
    rows: usize,
    cols: usize,
    codes: &[u8],
    accumulation: &[u32],
    outlets: &[u32],
    down_straight: &mut [u32],
    down_diagonal: &mut [u32],
    up_straight: &mut [u32],
    up_diagonal: &mut [u32],
) -> u32
    ensures { TellsFlowLengths
        (catchment rows cols codes.now accumulation.now outlets.now)
        (length_grids down_straight.old down_diagonal.old up_straight.old
        up_diagonal.old) result
        (length_grids down_straight.new down_diagonal.new up_straight.new
        up_diagonal.new) }
{
    number_told(flowlengths::flow_lengths(
        rows,
        cols,
        codes,
        accumulation,
        outlets,
        down_straight,
        down_diagonal,
        up_straight,
        up_diagonal,
    ))
}

#[unsafe(no_mangle)]
pub extern "C" fn jb_convert(
    from: u32,
    to: u32,
    rows: usize,
    cols: usize,
    codes: &[u8],
    converted: &mut [u8],
) -> u32
    ensures { Converts (conversion from to rows cols codes.now) converted.old result
        converted.new }
{
    number_told(converting::convert(from, to, rows, cols, codes, converted))
}

// Stores straight, diagonal, paths, visited and dropped, and hands back the number.
fn hand_back(t: Traced, results: &mut [u32; 5]) -> u32
    ensures { InNumbers t result results.new }
{
    let n = in_numbers(t.answer);
    *results = [n.straight, n.diagonal, n.paths, t.visited, t.dropped];
    n.number
}

#[unsafe(no_mangle)]
pub extern "C" fn jb_trace_by_stack(
    edition: u32,
    rows: usize,
    cols: usize,
    codes: &[u8],
    accumulation: &[u32],
    outlets: &[u32],
    place: usize,
    dropping: u32,
    subaccumulation: &mut [u32],
    starts: &mut [u32],
    work: &mut [u32],
    results: &mut [u32; 5],
) -> u32
    ensures { StackInC
        (call_of edition rows cols codes.now accumulation.now outlets.now place
        (non_zero dropping)) (lent subaccumulation.old starts.old) work.old
        result results.new (lent subaccumulation.new starts.new) work.new }
{
    let drops = dropping != 0;
    let t = tracing::trace_by_stack(
        edition,
        rows,
        cols,
        codes,
        accumulation,
        outlets,
        place,
        drops,
        subaccumulation,
        starts,
        work,
    );
    hand_back(t, results)
}

#[unsafe(no_mangle)]
pub extern "C" fn jb_trace_by_recursion(
    edition: u32,
    rows: usize,
    cols: usize,
    codes: &[u8],
    accumulation: &[u32],
    outlets: &[u32],
    place: usize,
    dropping: u32,
    subaccumulation: &mut [u32],
    starts: &mut [u32],
    results: &mut [u32; 5],
) -> u32
    ensures { RecursionInC
        (call_of edition rows cols codes.now accumulation.now outlets.now place
        (non_zero dropping)) (lent subaccumulation.old starts.old)
        result results.new (lent subaccumulation.new starts.new) }
{
    let with_dropping = dropping != 0;
    let t = tracing::trace_by_recursion(
        edition,
        rows,
        cols,
        codes,
        accumulation,
        outlets,
        place,
        with_dropping,
        subaccumulation,
        starts,
    );
    hand_back(t, results)
}

#[unsafe(no_mangle)]
pub extern "C" fn jb_trace_all(
    edition: u32,
    rows: usize,
    cols: usize,
    codes: &[u8],
    accumulation: &[u32],
    outlets: &[u32],
    subaccumulation: &mut [u32],
    starts: &mut [u32],
    counts: &mut [u32],
    work: &mut [u32],
    sums: &mut [u32; 2],
) -> u32
    ensures { AllInC edition
        (catchment rows cols codes.now accumulation.now outlets.now)
        (lent_all subaccumulation.old starts.old counts.old work.old)
        result sums.new
        (lent_all subaccumulation.new starts.new counts.new work.new) }
{
    let t = tracingall::trace_all(
        edition,
        rows,
        cols,
        codes,
        accumulation,
        outlets,
        subaccumulation,
        starts,
        counts,
        work,
    );
    *sums = [t.visited, t.dropped];
    t.number
}

// The part itself cannot be handed to C: where it begins and how many places it has stand for it.
#[unsafe(no_mangle)]
pub extern "C" fn jb_starts_of(starts: &[u32], counts: &[u32], choice: usize, part: &mut [usize; 2])
    ensures { PartInC starts.now counts.now choice part.new }
{
    let p = alloutlets::part_at(starts.len(), counts, choice);
    *part = [p.begin, p.count];
}

#[unsafe(no_mangle)]
pub extern "C" fn jb_draw(
    rows: usize,
    cols: usize,
    codes: &[u8],
    accumulation: &[u32],
    outlets: &[u32],
    place: usize,
    start: u32,
    path: &mut [u32],
    drawn: &mut [u32; 1],
) -> u32
    ensures { DrawingInC
        (drawing_of rows cols codes.now accumulation.now outlets.now place start)
        path.old result drawn.new path.new }
{
    match drawing::draw_into(rows, cols, codes, accumulation, outlets, place, start, path) {
        Ok(count) => {
            *drawn = [count as u32];
            0
        }
        Err(refusal) => {
            *drawn = [0];
            refusal.number()
        }
    }
}

#[unsafe(no_mangle)]
pub extern "C" fn jb_read_sheet(
    file: &[u8],
    codes: &mut [u8],
    outlets: &mut [u32],
    shape: &mut [u32; 3],
) -> u32
    ensures { ReadingInC file.now codes.old outlets.old result shape.new
        codes.new outlets.new }
{
    match reading::read(file, codes, outlets) {
        Ok(sheet) => {
            *shape = [sheet.rows, sheet.cols, sheet.outlets];
            0
        }
        Err(refusal) => {
            *shape = [0; 3];
            refusal.number()
        }
    }
}

#[unsafe(no_mangle)]
pub extern "C" fn jb_write_sheet(
    rows: usize,
    cols: usize,
    codes: &[u8],
    outlets: &[u32],
    file: &mut [u8],
    size: &mut [u32; 1],
) -> u32
    ensures { WritingInC (content rows cols codes.now outlets.now) file.old
        result size.new file.new }
{
    match writing::write(rows, cols, codes, outlets, file) {
        Ok(length) => {
            *size = [length];
            0
        }
        Err(refusal) => {
            *size = [0];
            refusal.number()
        }
    }
}
