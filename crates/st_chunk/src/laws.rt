//! Laws of the definitions.

ghost use Rattle.std.specs.Prelude.{◌≡◌, ◌++◌, ℕ, List, Some, All, IsTrue};
ghost use Rattle.st_chunk.specs.Texts.{cut, joined, is_empty};
ghost use Rattle.st_chunk.specs.Feeding.{start, account, limited, first_told};
ghost use Rattle.st_chunk.specs.Definitions.{Definition, IsDefinition, method_part, entries, definitions_in};

/// A text that is fed byte by byte gives its chunks, and what stands behind them, up to the first that is too long.
pub fn chunks_by_bytes()
    ensures { (text : List ℕ) → account start text ≡ limited (cut text).chunks (cut text).rest }
{}

/// A text is that of its chunks, each with `!` doubled and one more behind it, and of what stands behind them.
pub fn whole_text()
    ensures { (text : List ℕ) → joined (cut text) ≡ text }
{}

/// The entries of any definitions that meet `IsDefinition` are read back as these, and behind them are only blanks. This is by
/// `chunks`, which has no limit: the line feed before a method's text is of its chunk, which may so have 65,537 bytes.
pub fn entries_read_back()
    ensures back { (ds : List Definition) → All IsDefinition ds → definitions_in (entries ds) ≡ Some ds }
    ensures rest { (ds : List Definition) → All IsDefinition ds → IsTrue (is_empty (cut (entries ds)).rest) }
{}

/// An entry that is fed byte by byte from behind that line feed on tells the method's text first, whatever stands behind
/// the entry.
pub fn method_read_back()
    ensures { (d : Definition) (rest : List ℕ) → IsDefinition d →
        first_told (account start (method_part d ++ rest)) ≡ Some d.text }
{}
