// How far a search has come: the starts it has met, and what it has visited and dropped. Both engines use it.
#![tactic(auto)]

ghost use Rattle.std.specs.Prelude.{◌≡◌, ◌&&◌, ◌+◌, ◌-◌, ◌≤◌, ◌<◌, ◌^◌, length, set};
ghost use Rattle.lengths.specs.Lengths.{square_cells, farthest};
ghost use Rattle.progress.specs.Starts.{progress_of, begun, is_below, Room, Met, Visited};

use lengths::Length;
use std::cmp::Ordering;

// The greatest length met and how many starts have it, the cells visited and the cells dropped. The starts themselves
// stand in a slice, before an end: the first next to it, the others further down.
#[derive(Clone, Copy)]
pub struct Progress {
    pub greatest: Length,
    pub paths: u32,
    pub visited: u32,
    pub dropped: u32,
}

// Nothing is visited yet.
pub fn begin() -> Progress
    ensures { result ≡ begun }
{
    Progress {
        greatest: Length::none(),
        paths: 0,
        visited: 0,
        dropped: 0,
    }
}

// The first start of a greater length.
fn restart(work: &mut [u32], end: usize, cell: u32, len: Length, p: Progress) -> Progress
    requires { (0 < end) × (end ≤ length work.old) }
    ensures { (result ≡ progress_of len 1 p.visited p.dropped)
        × (work.new ≡ set work.old (end - 1) cell) }
{
    work[end - 1] = cell;
    Progress {
        greatest: len,
        paths: 1,
        ..p
    }
}

// One start more of the greatest length.
fn join(work: &mut [u32], end: usize, cell: u32, p: Progress) -> Progress
    requires { Room work.old end p }
    ensures { (result ≡ progress_of p.greatest (p.paths + 1) p.visited p.dropped)
        × (work.new ≡ set work.old (end - (p.paths + 1)) cell) }
{
    let paths = p.paths + 1;
    work[end - paths as usize] = cell;
    Progress { paths, ..p }
}

// A length is met: a shorter one than the greatest is forgotten, a longer one takes its place, a tie joins it.
fn meet(work: &mut [u32], end: usize, cell: u32, len: Length, p: Progress) -> Progress
    requires { Room work.old end p }
    ensures { Met work.old work.new end cell len p result }
{
    if p.paths == 0 {
        return restart(work, end, cell, len, p);
    }
    match len.compare(p.greatest) {
        Ordering::Less => p,
        Ordering::Greater => restart(work, end, cell, len, p),
        Ordering::Equal => join(work, end, cell, p),
    }
}

// A cell is visited at its length, which is met or not.
pub fn visit(
    work: &mut [u32],
    end: usize,
    cell: u32,
    met: bool,
    len: Length,
    p: Progress,
) -> Progress
    requires { Room work.old end p × (p.visited < 2 ^ 24) }
    ensures { Visited work.old work.new end cell met len p result }
{
    let counted = Progress {
        visited: p.visited + 1,
        ..p
    };
    if met {
        return meet(work, end, cell, len, counted);
    }
    counted
}

// A neighbour is dropped with its n cells.
pub fn drop_cells(p: Progress, n: u32) -> Progress
    requires { p.dropped + n ≤ 2 ^ 24 }
    ensures { result ≡ progress_of p.greatest p.paths p.visited (p.dropped + n) }
{
    Progress {
        dropped: p.dropped + n,
        ..p
    }
}

// Is a neighbour with n cells, itself at this length, to be dropped? Exactly if its length and n - 1 diagonal steps are
// shorter than the greatest length met: not before one is met, and not at a tie.
#[tactic(auto, unfolding(crate::specs::Starts::is_below, lengths::specs::Rule::is_shorter))]
pub fn is_dropped(dropping: bool, len: Length, n: u32, p: Progress) -> bool
    requires { (len.diagonal ≤ 2 ^ 24) × (0 < n) × (n ≤ 2 ^ 24) }
    ensures { result ≡ (dropping && is_below (farthest square_cells len (n - 1)) p) }
{
    dropping && p.paths != 0 && len.farthest(n - 1).compare(p.greatest).is_lt()
}
