// What two seats know, into one.
ghost use Rattle.std.specs.Prelude.{◌≡◌, length};
ghost use Rattle.sl_core.specs.Dividing.{greater_of};

// Into each number the greater of the two.
pub fn greater_of(known: &mut [u32], other: &[u32])
    requires { length other.now ≡ length known.old }
    ensures { known.new ≡ greater_of other.now known.old }
{
    for at in 0..known.len() {
        let number: u32 = other[at];
        known[at] = number.max(known[at]);
    }
}

// The numbers of another list, in this memory.
pub fn copy_of(mut known: Vec<u32>, other: &[u32]) -> Vec<u32>
    requires { length other.now ≡ length known.items }
    ensures { result.items ≡ other.now }
{
    known.as_mut_slice().copy_from_slice(other);
    known
}
