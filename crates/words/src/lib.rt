// Runs of words in lent memory.
#![tactic(auto)]

ghost use Rattle.std.specs.Prelude.{◌≡◌, ◌++◌, ◌≤◌, length, drop};
ghost use Rattle.words.specs.Lent.{cleared};

// Makes the first n words 0.
#[tactic(auto, unfolding(crate::specs::Lent::cleared))]
pub fn clear(words: &mut [u32], n: usize)
    requires { n ≤ length words.old }
    ensures { words.new ≡ cleared n words.old }
{
    words[..n].fill(0);
}

// Copies the source to the front of the words. A loop of its own: where the compiler can't see that the two lie apart, `copy_from_slice`
// calls `memmove`, which whoever links the static library would then have to bring.
pub fn copy_into(words: &mut [u32], source: &[u32])
    requires { length source.now ≤ length words.old }
    ensures { words.new ≡ source.now ++ drop (length source.now) words.old }
{
    for (i, &word) in source.iter().enumerate() {
        words[i] = word;
    }
}
