// Big-endian numbers.
ghost use Rattle.std.specs.Prelude.{◌≡◌, ◌+◌, ◌*◌, ◌^◌, ◌<◌, ◌≤◌, get_or, length, nat_le};
ghost use Rattle.std.specs.List.{list_all};
ghost use Rattle.model.specs.Fields.{number_of, value_all};
ghost use Rattle.model.specs.Numbers.{number};

// The big-endian number of up to 8 bytes. By a loop, which is the same for each width: `from_be_bytes` asks for an array of the width of its
// own type.
pub fn big_endian(bytes: &[u8]) -> u64
    requires { length bytes.now ≤ 8 }
    ensures { (result ≡ number bytes.now 0 (length bytes.now)) × (result < 256 ^ length bytes.now) }
{
    let mut v: u64 = 0;
    for b in bytes {
        v = v * 256 + *b as u64;
    }
    v
}

// A byte past the end of the file counts as 0.
fn byte_in(file: &[u8], at: usize) -> u64
    ensures { (result ≡ get_or file.now at 0) × (result < 256) }
{
    if at < file.len() { file[at] as u64 } else { 0 }
}

// The big-endian number of up to 8 bytes at a place of a file, which may end before them.
pub fn number_at(file: &[u8], at: usize, width: usize) -> u64
    requires { (at + width < 2 ^ 64) × (width ≤ 8) }
    ensures { (result ≡ number file.now at width) × (result < 256 ^ width) }
{
    let mut v: u64 = 0;
    for i in 0..width {
        v = v * 256 + byte_in(file, at + i);
    }
    v
}

// The numbers that bytes are, `W` bytes each.
pub fn big_endian_all<const W: usize, const N: usize>(bytes: &[u8]) -> [u64; N]
    requires { (1 ≤ W) × (W ≤ 8) × (length bytes.now ≡ W * N) }
    ensures { result ≡ value_all (number_of W 0 0) bytes.now 0 N }
{
    let (chunks, _) = bytes.as_chunks::<W>();
    let mut numbers = [0; N];
    // By an index: the closure of `array::from_fn` would know neither that it is below N nor how many chunks there are, and clauses there
    // would be longer than this loop.
    for (i, number) in numbers.iter_mut().enumerate() {
        *number = big_endian(&chunks[i]);
    }
    numbers
}

pub fn all_at_most(numbers: &[u64], most: u64) -> bool
    ensures { result ≡ list_all (λ number. nat_le number most) numbers.now }
{
    numbers.iter().all(|number| *number <= most)
}
