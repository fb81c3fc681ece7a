// The desk's lines, put as bytes into a lent slice from a place on. What finds no room is left out.
#![tactic(auto)]

ghost use Rattle.std.specs.Prelude.{[], ◌∷◌};
ghost use Rattle.lines.specs.Line.{decimal, labelled, catchment_line, outlet_line, path_line, refused_line};
ghost use Rattle.lines.specs.Appending.{Appends};

// One byte; the place after it is handed back.
fn put(text: &mut [u8], at: usize, byte: u8) -> usize
    ensures { Appends (byte ∷ []) at text.old result text.new }
{
    if at < text.len() {
        text[at] = byte;
        return at + 1;
    }
    at
}

// A word.
fn put_word(text: &mut [u8], at: usize, word: &[u8]) -> usize
    ensures { Appends word.now at text.old result text.new }
{
    let mut to = at;
    for &byte in word {
        to = put(text, to, byte);
    }
    to
}

// A number's decimal digits. By recursion: `write!` promises its text only where it answers Ok, and `Appends` holds always.
fn put_number(text: &mut [u8], at: usize, n: u32) -> usize
    ensures { Appends (decimal n) at text.old result text.new }
{
    let last = (48 + n % 10) as u8;
    if n < 10 {
        return put(text, at, last);
    }
    let to = put_number(text, at, n / 10);
    put(text, to, last)
}

// A word and a number.
fn put_labelled(text: &mut [u8], at: usize, word: &[u8], n: u32) -> usize
    ensures { Appends (labelled word.now n) at text.old result text.new }
{
    let to = put_word(text, at, word);
    put_number(text, to, n)
}

// The line of a refusal.
pub fn put_refused(text: &mut [u8], at: usize, number: u32) -> usize
    ensures { Appends (refused_line number) at text.old result text.new }
{
    let to = put_labelled(text, at, b"refused ", number);
    put_word(text, to, b"\n")
}

// The first line.
pub fn put_catchment(text: &mut [u8], at: usize, rows: u32, cols: u32, outlets: u32) -> usize
    ensures { Appends (catchment_line rows cols outlets) at text.old result text.new }
{
    let a = put_labelled(text, at, b"catchment ", rows);
    let b = put_labelled(text, a, b" ", cols);
    let c = put_labelled(text, b, b" outlets ", outlets);
    put_word(text, c, b"\n")
}

// The line of a path, by its start.
pub fn put_path(text: &mut [u8], at: usize, row: u32, col: u32) -> usize
    ensures { Appends (path_line row col) at text.old result text.new }
{
    let a = put_labelled(text, at, b"path ", row);
    let b = put_labelled(text, a, b" ", col);
    put_word(text, b, b"\n")
}

// What the line of an outlet says: its place counted from 1, its row and column, the cells of its subwatershed, the
// steps of its longest paths, how many these are, and how many cells the search visited and dropped.
#[derive(Clone, Copy)]
pub struct OutletLine {
    pub place: u32,
    pub row: u32,
    pub col: u32,
    pub cells: u32,
    pub straight: u32,
    pub diagonal: u32,
    pub paths: u32,
    pub visited: u32,
    pub dropped: u32,
}

// The line of an outlet.
pub fn put_outlet(text: &mut [u8], at: usize, line: OutletLine) -> usize
    ensures { Appends (outlet_line line) at text.old result text.new }
{
    let a = put_labelled(text, at, b"outlet ", line.place);
    let b = put_labelled(text, a, b" at ", line.row);
    let c = put_labelled(text, b, b" ", line.col);
    let d = put_labelled(text, c, b" cells ", line.cells);
    let e = put_labelled(text, d, b" straight ", line.straight);
    let f = put_labelled(text, e, b" diagonal ", line.diagonal);
    let g = put_labelled(text, f, b" paths ", line.paths);
    let h = put_labelled(text, g, b" visited ", line.visited);
    let i = put_labelled(text, h, b" dropped ", line.dropped);
    put_word(text, i, b"\n")
}
