// The edge of recursion: 4,096 cells and 4,097, by recursion and from pending cells, by either edition, without and
// with dropping. Then drawing: the part that is handed back, and what every lent place holds afterwards.
#![tactic(auto)]

use accumulation::accumulate;
use answers::{Answer, Traced, number_told};
use drawing::{check_drawing, draw};
use std::io;
use tracing::{trace_by_recursion, trace_by_stack};

// Every number of a list, each after a space.
fn numbers(rt: &impl Print, list: &[u32]) -> io::Result<()> {
    for x in list {
        print!(rt; " {x}")?;
    }
    Ok(())
}

fn show(rt: &impl Print, t: Traced) -> io::Result<()> {
    match t.answer {
        Answer::Found {
            straight,
            diagonal,
            paths,
        } => print!(rt; "found {straight} {diagonal} paths {paths}")?,
        Answer::NoPlace { paths } => print!(rt; "no place {paths}")?,
        Answer::Refused { number } => print!(rt; "refused {number}")?,
    }
    print!(rt; " visited {} dropped {}", t.visited, t.dropped)
}

// Every place of a lent list, those beyond the starts too.
fn list(rt: &impl Print, starts: &[u32]) -> io::Result<()> {
    print!(rt; " list")?;
    numbers(rt, starts)?;
    println!(rt;)
}

// The last cell of the first row is the outlet of all. Every cell is on the divide.
fn trace_row(
    rt: &impl Print,
    edition: u32,
    rows: usize,
    codes: &[u8],
    dropping: bool,
) -> io::Result<()> {
    let outlets = [4095u32; 1];
    let mut accumulation = [0u32; 8192];
    let mut subaccumulation = [0u32; 8192];
    let mut starts = [9u32; 3];
    let mut work = [0u32; 12291];
    let _ = accumulate(rows, 4096, codes, &mut accumulation);
    show(
        rt,
        trace_by_recursion(
            edition,
            rows,
            4096,
            codes,
            &accumulation,
            &outlets,
            0,
            dropping,
            &mut subaccumulation,
            &mut starts,
        ),
    )?;
    list(rt, &starts)?;
    show(
        rt,
        trace_by_stack(
            edition,
            rows,
            4096,
            codes,
            &accumulation,
            &outlets,
            0,
            dropping,
            &mut subaccumulation,
            &mut starts,
            &mut work,
        ),
    )?;
    list(rt, &starts)
}

// By an edition, an outlet of 4,096 cells is traced by recursion, and one of 4,097 is refused with 19; from pending
// cells both are traced.
fn longest_rows(rt: &impl Print, edition: u32) -> io::Result<()> {
    let mut codes = [1u8; 8192];
    codes[4096..].fill(0);
    codes[4096] = 64;
    trace_row(rt, edition, 1, &codes, false)?;
    trace_row(rt, edition, 1, &codes, true)?;
    trace_row(rt, edition, 2, &codes, false)?;
    trace_row(rt, edition, 2, &codes, true)
}

// One drawing into lent places: its number, every cell of the part that is handed back, and every lent place, once the
// part is no longer borrowed.
fn draw_once(
    rt: &impl Print,
    rows: usize,
    codes: &[u8; 5],
    accumulation: &[u32; 5],
    outlets: &[u32],
    place: usize,
    start: u32,
    path: &mut [u32],
) -> io::Result<()> {
    let checked = check_drawing(rows, 5, codes, accumulation, outlets, place, start, path);
    print!(rt; "drawing {} part", number_told(checked))?;
    let part = draw(rows, 5, codes, accumulation, outlets, place, start, path);
    numbers(rt, part)?;
    print!(rt; " places")?;
    numbers(rt, path)?;
    println!(rt;)
}

// 10, 11, 12, 14: no row, a row more than is lent, a strange code, a wrong accumulation.
fn refused_grids(rt: &impl Print, codes: &[u8; 5], accumulation: &[u32; 5]) -> io::Result<()> {
    let outlets = [1u32; 1];
    let strange = [3u8, 4, 16, 16, 0];
    let wrong = [1u32, 4, 2, 2, 0];
    let mut path = [9u32; 5];
    draw_once(rt, 0, codes, accumulation, &outlets, 0, 3, &mut path)?;
    draw_once(rt, 2, codes, accumulation, &outlets, 0, 3, &mut path)?;
    draw_once(rt, 1, &strange, accumulation, &outlets, 0, 3, &mut path)?;
    draw_once(rt, 1, codes, &wrong, &outlets, 0, 3, &mut path)
}

// 15 to 18: no outlet, one on the null cell, one twice, a place after the last.
fn refused_outlets(rt: &impl Print, codes: &[u8; 5], accumulation: &[u32; 5]) -> io::Result<()> {
    let null = [4u32; 1];
    let twice = [1u32; 2];
    let mut path = [9u32; 5];
    draw_once(rt, 1, codes, accumulation, &null[..0], 0, 3, &mut path)?;
    draw_once(rt, 1, codes, accumulation, &null, 0, 3, &mut path)?;
    draw_once(rt, 1, codes, accumulation, &twice, 0, 3, &mut path)?;
    draw_once(rt, 1, codes, accumulation, &twice[..1], 1, 3, &mut path)
}

// 22, 22, 22, 23: a start beyond the grid, on the null cell, above another outlet; a place too few.
fn refused_paths(rt: &impl Print, codes: &[u8; 5], accumulation: &[u32; 5]) -> io::Result<()> {
    let outlets = [1u32, 2];
    let mut path = [9u32; 5];
    let mut few = [9u32; 2];
    draw_once(rt, 1, codes, accumulation, &outlets, 0, 5, &mut path)?;
    draw_once(rt, 1, codes, accumulation, &outlets, 0, 4, &mut path)?;
    draw_once(rt, 1, codes, accumulation, &outlets, 0, 3, &mut path)?;
    draw_once(rt, 1, codes, accumulation, &outlets[..1], 0, 3, &mut few)
}

// A row that ends in a null cell, where the path from cell 3 to the outlet 1 is 3, 2, 1: each number that drawing
// refuses with, then the path in places that just hold it, and in more.
fn drawings(rt: &impl Print) -> io::Result<()> {
    let codes = [1u8, 4, 16, 16, 0];
    let outlets = [1u32; 1];
    let mut accumulation = [0u32; 5];
    let mut just = [9u32; 3];
    let mut path = [9u32; 5];
    let _ = accumulate(1, 5, &codes, &mut accumulation);
    refused_grids(rt, &codes, &accumulation)?;
    refused_outlets(rt, &codes, &accumulation)?;
    refused_paths(rt, &codes, &accumulation)?;
    draw_once(rt, 1, &codes, &accumulation, &outlets, 0, 3, &mut just)?;
    draw_once(rt, 1, &codes, &accumulation, &outlets, 0, 3, &mut path)
}

fn main(rt: HostRuntime) -> io::Result<()> {
    longest_rows(&rt, 1)?;
    longest_rows(&rt, 2)?;
    drawings(&rt)
}
