// Sets of small numbers, as the bits of a word; and as two words half as wide, where they stand in a table or an answer.
#![tactic(auto)]

ghost use Rattle.std.specs.Prelude.{◌≡◌, ◌+◌, ◌*◌, ◌^◌, ◌<◌};
ghost use Rattle.std.specs.Int.Count.{count_trailing_zeros};
ghost use Rattle.sets.specs.Sets.{set_bits, bit, member};
ghost use Rattle.sets.specs.Halves.{low_half, high_half, of_halves};

// The numbers in a set are the places of its bits.
pub type Set = u64;

// How many numbers a set has a bit for.
pub const SET_BITS: usize = 64;

// The set with nothing in it.
pub const EMPTY: Set = 0;

// How many numbers a word has: what one in the high half of a set stands for.
const WORD: Set = 1 << 32;

// The set with i in it where b says so. A set is made upwards, so nothing from i on is in it yet.
pub fn put(set: Set, i: u32, b: bool) -> Set
    requires { (i < set_bits) × (set < 2 ^ i) }
    ensures { result ≡ bit b * 2 ^ i + set }
{
    if b { set | (1 << i) } else { set }
}

// Whether i is in a set.
#[tactic(auto, unfolding(crate::specs::Sets::member))]
pub fn has(set: Set, i: u32) -> bool
    requires { i < set_bits }
    ensures { result ≡ member i set }
{
    (set >> i) % 2 == 1
}

// How many numbers stand below the lowest in a set; all of them where it is empty.
pub fn zeros_below(set: Set) -> u32
    ensures { result ≡ count_trailing_zeros set_bits set }
{
    set.trailing_zeros()
}

// A set as two words.
pub fn low_half(set: Set) -> u32
    ensures { result ≡ low_half set }
{
    (set % WORD) as u32
}

pub fn high_half(set: Set) -> u32
    ensures { result ≡ high_half set }
{
    (set / WORD) as u32
}

// The set that two words say.
pub fn of_halves(low: u32, high: u32) -> Set
    ensures { result ≡ of_halves low high }
{
    Set::from(high) * WORD + Set::from(low)
}
