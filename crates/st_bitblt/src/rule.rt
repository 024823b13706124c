ghost use Rattle.std.specs.Prelude.{◌≡◌, ℕ, ◌+◌, ◌-◌, ◌*◌, ◌<◌, ◌≤◌};
ghost use Rattle.std.specs.Int.{bit_at};
ghost use Rattle.st_model.specs.Pixels.{combine};

use std::marker::Model;

/// One of the sixteen rules by which a bit of the source and one of the destination are combined: for each pair of bits a word
/// of ones where the rule makes a 1 of it, else of zeros. Clauses see its number.
#[derive(Drop)]
pub struct Rule {
    both: u16,
    source_alone: u16,
    dest_alone: u16,
    neither: u16,
}

impl Model for Rule {
    ghost use Rattle.std.specs.Prelude.{ℕ};
    ghost use Rattle.st_bitblt.specs.inside.Rules.{AreSpread, number_of_words};

    ghost Value = { ℕ };

    ghost view = { λ r. number_of_words r.both r.source_alone r.dest_alone r.neither };

    ghost invariant = { λ r. AreSpread r.both r.source_alone r.dest_alone r.neither };
}

/// A word of ones where a number contains 2 ^ place, else of zeros.
fn spread(number: u16, place: u32) -> u16
    requires { place < 16 }
    ensures { (j : ℕ) → j < 16 → bit_at result j ≡ bit_at number place }
{
    if number >> place & 1 == 1 { 0xFFFF } else { 0 }
}

impl Rule {
    /// The rule of a number.
    pub fn new(number: u16) -> Rule
        requires { number < 16 }
        ensures { result ≡ number }
    {
        Rule {
            both: spread(number, 0),
            source_alone: spread(number, 1),
            dest_alone: spread(number, 2),
            neither: spread(number, 3),
        }
    }

    /// What it makes of each bit of a source's word and of a destination's: where that is 1 by two of its words, and else by the
    /// other two.
    pub fn combined(&self, source: u16, dest: u16) -> u16
        ensures { (j : ℕ) → j < 16
            → bit_at result j ≡ combine self.now (bit_at source j) (bit_at dest j) }
    {
        let on_ones = source & (self.both ^ self.dest_alone) ^ self.dest_alone;
        let on_zeros = source & (self.source_alone ^ self.neither) ^ self.neither;
        dest & (on_ones ^ on_zeros) ^ on_zeros
    }
}

/// A word of which n pixels from `first` on, counted from the left, are a new one's, and all others an old one's.
pub fn masked(new: u16, old: u16, first: u32, n: u32) -> u16
    requires { first + n ≤ 16 }
    ensures inside { (i : ℕ) → first ≤ i → i < first + n → bit_at result (15 - i) ≡ bit_at new (15 - i) }
    ensures below { (i : ℕ) → i < first → bit_at result (15 - i) ≡ bit_at old (15 - i) }
    ensures above { (i : ℕ) → first + n ≤ i → i < 16 → bit_at result (15 - i) ≡ bit_at old (15 - i) }
{
    let mask = mask(first, n);
    new & mask | old & !mask
}

/// Ones at n pixels of a word from `first` on, counted from the left.
fn mask(first: u32, n: u32) -> u16
    requires { first + n ≤ 16 }
    ensures inside { (i : ℕ) → first ≤ i → i < first + n → bit_at result (15 - i) ≡ 1 }
    ensures below { (i : ℕ) → i < first → bit_at result (15 - i) ≡ 0 }
    ensures above { (i : ℕ) → first + n ≤ i → i < 16 → bit_at result (15 - i) ≡ 0 }
{
    let high = 16 - first;
    ((1u32 << high) - (1u32 << (high - n))) as u16
}

/// Sixteen pixels of two neighbouring words, without the first `skip`, of which there is one.
pub fn joined(left: u16, right: u16, skip: u32) -> u16
    requires some { 0 < skip }
    requires skip { skip < 16 }
    ensures left { (i : ℕ) → skip + i < 16 → bit_at result (15 - i) ≡ bit_at left (15 - (skip + i)) }
    ensures right { (i : ℕ) → i < 16 → 16 ≤ skip + i
        → bit_at result (15 - i) ≡ bit_at right (31 - (skip + i)) }
{
    left << skip | right >> (16 - skip)
}
