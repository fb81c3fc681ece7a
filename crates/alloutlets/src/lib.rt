// All outlets of a list traced in one call: the answer, and the part of the list that shows one outlet's starts.
#![tactic(auto)]

ghost use Rattle.std.specs.Prelude.{◌≡◌};
ghost use Rattle.alloutlets.specs.Part.{part_at, ShowsStarts};

// What became of tracing all outlets: the number of the first check that fails, 0 if none does, and the sums of the
// cells visited and dropped.
// It is no `Result`: the sums are told beside 21 too (`sums_told`).
#[derive(Clone, Copy)]
pub struct TracedAll {
    pub number: u32,
    pub visited: u32,
    pub dropped: u32,
}

// A part of a list: where it begins, and how many places it has. Both are 0 where it is empty.
#[derive(Clone, Copy)]
pub struct Part {
    pub begin: usize,
    pub count: usize,
}

// Where the starts of the chosen outlet stand in a list of n, by the counts of the outlets before it and its own.
// Counts may be any numbers: none is added that would run past n.
pub fn part_at(n: usize, counts: &[u32], choice: usize) -> Part
    ensures { result ≡ part_at counts.now choice n }
{
    let empty = Part { begin: 0, count: 0 };
    if counts.len() <= choice {
        return empty;
    }
    let mut begin = 0;
    for &more in &counts[..choice] {
        let more = more as usize;
        if n - begin < more {
            return empty;
        }
        begin += more;
    }
    let count = counts[choice] as usize;
    if count == 0 || n - begin < count {
        return empty;
    }
    Part { begin, count }
}

// The starts of the chosen outlet, as a part of the list; it is empty where the choice is outside the count list or the
// counts up to and with its own run past the starts.
pub fn starts_of<'a>(starts: &'a [u32], counts: &[u32], choice: usize) -> &'a [u32]
    ensures { ShowsStarts starts.now starts.entry.ref_ptr counts.now choice
        result.now result.ref_ptr }
{
    let part = part_at(starts.len(), counts, choice);
    &starts[part.begin..part.begin + part.count]
}
