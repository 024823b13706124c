ghost use Rattle.std.specs.Prelude.{◌≡◌, ◌<◌, ◌≤◌, ◌+◌, ℕ, length, true, false};
ghost use Rattle.st_model.specs.Values.{word, is_small};
ghost use Rattle.st_draft.specs.inside.Drafts.{value_before, AreEven};

use crate::change::Exchange;
use st_model::Word;

/// The pairs of objects that a row exchanges, in its order. There is room for 70.
#[derive(Drop)]
pub struct Exchanges {
    pub pairs: [Exchange; 70],
    pub count: u32,
    pub ghost few: { count ≤ 70 },
    pub ghost sizes: { length pairs ≡ 70 },
    pub ghost even: { AreEven pairs count },
}

impl Exchange {
    /// The word that had, before the exchange, the object that this one has behind it.
    #[tactic(auto, using(crate::proofs::Renaming::before))]
    fn word_before(self, o: Word) -> Word
        requires first { is_small (word self.first) ≡ false }
        requires second { is_small (word self.second) ≡ false }
        ensures { word result ≡ value_before (word self.first) (word self.second) (word o) }
    {
        if o.0 == self.first.0 {
            self.second
        } else if o.0 == self.second.0 {
            self.first
        } else {
            o
        }
    }
}

impl Exchanges {
    ghost use Rattle.st_model.specs.Table.{Table};
    ghost use Rattle.st_model.specs.View.{is_live, with_exchanged};
    ghost use Rattle.st_draft.specs.inside.Drafts.{exchanged_by, value_first, AreOf};

    /// No exchange.
    pub fn new() -> Exchanges
        ensures { result.count ≡ 0 }
    {
        let none = Exchange {
            first: Word(0),
            second: Word(0),
        };
        Exchanges {
            pairs: [none; 70],
            count: 0,
        }
    }

    /// The word that had, before all exchanges, the object that this one has behind them.
    pub fn word_before(&self, o: Word) -> Word
        ensures { word result ≡ value_first self.now.pairs self.now.count (word o) }
    {
        let mut o = o;
        let mut k = self.count;
        while k > 0 {
            k -= 1;
            o = self.pairs[k as usize].word_before(o);
        }
        o
    }

    /// One exchange more.
    pub fn add(&mut self, pair: Exchange)
        requires room { self.old.count < 70 }
        requires first { is_small (word pair.first) ≡ false }
        requires second { is_small (word pair.second) ≡ false }
        ensures more { (t : Table) → exchanged_by t self.new.pairs self.new.count
            ≡ with_exchanged (exchanged_by t self.old.pairs self.old.count)
            (word pair.first) (word pair.second) }
        ensures of { (t : Table) → AreOf t self.old.pairs self.old.count
            → is_live t (word pair.first) ≡ true → is_live t (word pair.second) ≡ true
            → AreOf t self.new.pairs self.new.count }
        ensures count { self.new.count ≡ self.old.count + 1 }
    {
        self.pairs[self.count as usize] = pair;
        self.count += 1;
    }
}
