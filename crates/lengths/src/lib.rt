// Lengths of walks, a + b√2 cell sides, compared exactly by their counts of steps.
#![tactic(auto)]

ghost use Rattle.std.specs.Prelude.{◌≡◌, ◌-◌, ◌*◌, ◌≤◌, ◌<◌, ◌^◌, ltb};
ghost use Rattle.lengths.specs.Rule.{compared, counts, plus_step};
ghost use Rattle.lengths.specs.Lengths.{square_cells, farthest};

use std::cmp::Ordering;

// One step of a walk.
#[derive(Clone, Copy)]
pub enum Step {
    Straight,
    Diagonal,
}

// The straight and the diagonal steps of a walk.
#[derive(Clone, Copy)]
pub struct Length {
    pub straight: u32,
    pub diagonal: u32,
}

// Is p² larger than 2q²? Half of p² is taken instead of twice q², so that any two counts fit 64 bits: as p² is never
// 2q², the answer is the same.
fn is_larger(p: u64, q: u64) -> bool
    requires { (p < 2 ^ 32) × (q < 2 ^ 32) × (0 < q) }
    ensures { result ≡ ltb (2 * (q * q)) (p * p) }
{
    q * q <= p * p / 2
}

impl Length {
    // No step yet.
    pub fn none() -> Length
        ensures { result ≡ counts 0 0 }
    {
        Length {
            straight: 0,
            diagonal: 0,
        }
    }

    // The farthest that n steps more can reach: all of them diagonal.
    pub fn farthest(self, n: u32) -> Length
        requires { (self.diagonal ≤ 2 ^ 24) × (n ≤ 2 ^ 24) }
        ensures { result ≡ farthest square_cells self n }
    {
        Length {
            diagonal: self.diagonal + n,
            ..self
        }
    }

    // One step longer.
    pub fn plus(self, step: Step) -> Length
        requires { (self.straight < 2 ^ 32 - 1) × (self.diagonal < 2 ^ 32 - 1) }
        ensures { result ≡ plus_step self step }
    {
        match step {
            Step::Straight => Length {
                straight: self.straight + 1,
                ..self
            },
            Step::Diagonal => Length {
                diagonal: self.diagonal + 1,
                ..self
            },
        }
    }

    // The comparison of any two lengths, by the signs and the squares of p and q, the differences of the counts.
    pub fn compare(self, other: Length) -> Ordering
        ensures { result ≡ compared self other }
    {
        let a = u64::from(self.straight);
        let b = u64::from(self.diagonal);
        let c = u64::from(other.straight);
        let d = u64::from(other.diagonal);
        match (a.cmp(&c), b.cmp(&d)) {
            (straight, Ordering::Equal) => straight,
            (Ordering::Equal, diagonal) => diagonal,
            (Ordering::Less, Ordering::Less) => Ordering::Less,
            (Ordering::Greater, Ordering::Greater) => Ordering::Greater,
            (Ordering::Less, Ordering::Greater) => if is_larger(c - a, b - d) {
                Ordering::Less
            } else {
                Ordering::Greater
            },
            (Ordering::Greater, Ordering::Less) => if is_larger(a - c, d - b) {
                Ordering::Greater
            } else {
                Ordering::Less
            },
        }
    }
}
