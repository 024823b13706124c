// Laws of the definitions.
ghost use Rattle.std.specs.Prelude.{◌≡◌, ◌++◌, ◌∷◌, ℕ, List};
ghost use Rattle.st_chunk.specs.Definitions.{line_feed};
ghost use Rattle.st_chunk.specs.Reading.{line_from};
ghost use Rattle.st_chunk.specs.Scripts.{asked_by, asked_from, IsWholeLine, line_read};

/// A line that is read byte by byte asks for what the line does, and the script goes on behind its line feed, unless the line
/// was the last that is followed.
pub fn lines_by_bytes()
    ensures { (n : ℕ) (text rest : List ℕ) → IsWholeLine text
        → asked_from (line_from n) (text ++ line_feed ∷ rest)
        ≡ asked_by (line_read n text) ++ asked_from (line_read n text).0 rest }
{}
