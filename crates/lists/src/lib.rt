// Small functions over lists and lent slices.
#![tactic(auto)]

ghost use Rattle.std.specs.Prelude.{◌≡◌, ◌≤◌, ◌+◌, length, drop};
ghost use Rattle.std.proofs.lemmas.List.Edits.{sets};
ghost use Rattle.lists.specs.Lists.{member};
ghost use Rattle.lists.specs.Slices.{Cleared};

// Clears the first n places.
pub fn clear(n: usize, list: &mut [u32])
    requires { n ≤ length list.old }
    ensures { Cleared n n list.old list.new }
{
    list[..n].fill(0);
}

// Copies a list to the places from one on. Byte by byte: by `copy_from_slice` the library for C would need `memmove` from
// outside.
pub fn copy(from: &[u8], to: &mut [u8], place: usize)
    requires { place + length from.now ≤ length to.old }
    ensures { to.new ≡ sets to.old place from.now }
{
    for i in 0..from.len() {
        to[place + i] = from[i];
    }
}

// Does a number stand in the list, at a place or after it? By an index: through an iterator the compiler would not set the
// loop over an empty list apart where a search asks it of each neighbour, and the search takes up to 1.7 times as long.
pub fn is_among(list: &[u32], from: usize, x: usize) -> bool
    ensures { result ≡ member x (drop from list.now) }
{
    for k in from..list.len() {
        if list[k] as usize == x {
            return true;
        }
    }
    false
}
