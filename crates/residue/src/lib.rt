// What is left of a test once a fact about the same field is known (document 01, "Residues").
#![tactic(auto)]

ghost use Rattle.std.specs.Prelude.{◌≡◌, ◌+◌, ◌-◌};
ghost use Rattle.residue.specs.Tests.{holds};
ghost use Rattle.residue.specs.Facts.{fact_of, fails_fact};
ghost use Rattle.residue.specs.Residues.{outside, covers, from_masked, from_equal, from_differs, from_at_most, from_at_least, residue_by};

// A test on a field: equal under a mask, differs under a mask (mask, value), at most, at least.
#[derive(Clone, Copy, Debug, PartialEq, Eq)]
pub enum Test {
    Equal(u32, u32),
    Differs(u32, u32),
    AtMost(u32),
    AtLeast(u32),
}

// What a question came to, in three ways.
#[derive(Clone, Copy, Debug, PartialEq, Eq)]
pub enum Outcome {
    Holds,
    Fails,
    Absent,
}

// What is left of a test: it holds, it fails, or a test is left.
#[derive(Clone, Copy, Debug, PartialEq, Eq)]
pub enum Residue {
    True,
    False,
    Left(Test),
}

// The test at a number: the four kinds in document 01's order.
#[tactic(auto, unfolding(crate::specs::Tests::holds))]
pub fn test_holds(t: Test, x: u32) -> bool
    ensures { result ≡ holds t x }
{
    match t {
        Test::Equal(m, v) => x & m == v,
        Test::Differs(m, v) => x & m != v,
        Test::AtMost(c) => x <= c,
        Test::AtLeast(c) => c <= x,
    }
}

// The opposite of a test, on a present field. At most full and at least 0 cannot fail, so c + 1 and c - 1 stay within a word.
#[tactic(auto, unfolding(crate::specs::Facts::fails_fact))]
fn fails_fact(full: u32, t: Test) -> Option<Test>
    ensures { result ≡ fails_fact full t }
{
    match t {
        Test::Equal(m, v) => Some(Test::Differs(m, v)),
        Test::Differs(m, v) => Some(Test::Equal(m, v)),
        Test::AtMost(c) if c < full => Some(Test::AtLeast(c + 1)),
        Test::AtLeast(c) if 0 < c => Some(Test::AtMost(c - 1)),
        _ => None,
    }
}

// The fact that the question t gives at an outcome.
#[tactic(auto, unfolding(crate::specs::Facts::fact_of))]
pub fn fact_of(full: u32, o: Outcome, t: Test) -> Option<Test>
    ensures { result ≡ fact_of full o t }
{
    match o {
        Outcome::Holds => Some(t),
        Outcome::Fails => fails_fact(full, t),
        Outcome::Absent => None,
    }
}

// The bits of m outside k.
fn without(m: u32, k: u32) -> u32
    ensures { result ≡ outside m k }
{
    m & !k
}

// The greatest number with the bits w under the mask k. In 64 bits: on a 32-bit field a sum with full passes a word.
fn greatest(full: u32, k: u32, w: u32) -> u64
    ensures { result ≡ w + (full - k) }
{
    w as u64 + full.saturating_sub(k) as u64
}

// The fact x & k = w with k not full: x lies between w and the greatest such number. Equal and differs keep the bits outside k.
#[tactic(auto, unfolding(crate::specs::Residues::from_masked, crate::specs::Residues::reduced_equal, crate::specs::Residues::reduced_differs))]
fn from_masked(full: u32, k: u32, w: u32, t: Test) -> Residue
    ensures { result ≡ from_masked full k w t }
{
    match t {
        Test::Equal(m, v) if v & k != w & m => Residue::False,
        Test::Equal(m, _) if without(m, k) == 0 => Residue::True,
        Test::Equal(m, v) => Residue::Left(Test::Equal(without(m, k), without(v, k))),
        Test::Differs(m, v) if v & k != w & m => Residue::True,
        Test::Differs(m, _) if without(m, k) == 0 => Residue::False,
        Test::Differs(m, v) => Residue::Left(Test::Differs(without(m, k), without(v, k))),
        Test::AtMost(c) if c < w => Residue::False,
        Test::AtMost(c) if greatest(full, k, w) <= c as u64 => Residue::True,
        Test::AtLeast(c) if c <= w => Residue::True,
        Test::AtLeast(c) if greatest(full, k, w) < c as u64 => Residue::False,
        _ => Residue::Left(t),
    }
}

// The fact x & k = w: with the full mask x is w.
#[tactic(auto, unfolding(crate::specs::Residues::from_equal, crate::specs::Residues::settled))]
fn from_equal(full: u32, k: u32, w: u32, t: Test) -> Residue
    ensures { result ≡ from_equal full k w t }
{
    if k != full {
        return from_masked(full, k, w, t);
    }
    if test_holds(t, w) {
        Residue::True
    } else {
        Residue::False
    }
}

// All bits of k are in m and v & k = w.
#[tactic(auto, unfolding(crate::specs::Residues::covers))]
fn covered(m: u32, v: u32, k: u32, w: u32) -> bool
    ensures { result ≡ covers m v k w }
{
    (k & m == k) & (v & k == w)
}

// The fact x & k ≠ w.
#[tactic(auto, unfolding(crate::specs::Residues::from_differs))]
fn from_differs(k: u32, w: u32, t: Test) -> Residue
    ensures { result ≡ from_differs k w t }
{
    match t {
        Test::Equal(m, v) if covered(m, v, k, w) => Residue::False,
        Test::Differs(m, v) if covered(m, v, k, w) => Residue::True,
        _ => Residue::Left(t),
    }
}

// The fact x ≤ b.
#[tactic(auto, unfolding(crate::specs::Residues::from_at_most))]
fn from_at_most(b: u32, t: Test) -> Residue
    ensures { result ≡ from_at_most b t }
{
    match t {
        Test::Equal(_, v) if b < v => Residue::False,
        Test::Differs(_, v) if b < v => Residue::True,
        Test::AtMost(c) if b <= c => Residue::True,
        Test::AtLeast(c) if b < c => Residue::False,
        _ => Residue::Left(t),
    }
}

// The fact x ≥ b.
#[tactic(auto, unfolding(crate::specs::Residues::from_at_least))]
fn from_at_least(full: u32, b: u32, t: Test) -> Residue
    ensures { result ≡ from_at_least full b t }
{
    match t {
        Test::Equal(m, v) if greatest(full, m, v) < b as u64 => Residue::False,
        Test::Differs(m, v) if greatest(full, m, v) < b as u64 => Residue::True,
        Test::AtMost(c) if c < b => Residue::False,
        Test::AtLeast(c) if c <= b => Residue::True,
        _ => Residue::Left(t),
    }
}

// What the fact k leaves of the test t, on a field whose greatest number is full.
#[tactic(auto, unfolding(crate::specs::Residues::residue_by))]
pub fn residue_of(full: u32, k: Option<Test>, t: Test) -> Residue
    ensures { result ≡ residue_by full k t }
{
    match k {
        None => Residue::False,
        Some(Test::Equal(m, w)) => from_equal(full, m, w, t),
        Some(Test::Differs(m, w)) => from_differs(m, w, t),
        Some(Test::AtMost(b)) => from_at_most(b, t),
        Some(Test::AtLeast(b)) => from_at_least(full, b, t),
    }
}
