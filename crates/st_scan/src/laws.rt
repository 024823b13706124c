//! Laws of the definition.

ghost use Rattle.std.specs.Prelude.{◌≡◌, ◌∷◌, [], ℕ, Bool, List, Option, All, length};
ghost use Rattle.st_scan.specs.declared.token.Token.{Token};
ghost use Rattle.st_scan.specs.declared.fault.Fault.{Fault};
ghost use Rattle.std.specs.Str.{byte};
ghost use Rattle.st_scan.specs.Pieces.{Piece, IsFormed, Stands};
ghost use Rattle.st_scan.specs.inside.Scanned.{ScansTo, HasScan, HasTokens};
ghost use Rattle.st_scan.specs.Scans.{AreSpans, IsToken, IsJoined};

/// A text has one list of tokens, up to its end or up to its one first fault.
pub fn one_scan()
    ensures some { (text : List ℕ) → HasScan text }
    ensures one { (text : List ℕ) (ts us : List Token) (e f : Option Fault)
        → ScansTo text ts e → ScansTo text us f → (ts ≡ us) × (e ≡ f) }
{}

/// The tokens of a text lie in order within it, and at each one's span stand the bytes of a piece of its sort.
pub fn token_spans()
    ensures spans { (text : List ℕ) (ts : List Token) (e : Option Fault)
        → ScansTo text ts e → AreSpans 0 ts (length text) }
    ensures texts { (text : List ℕ) (ts : List Token) (e : Option Fault)
        → ScansTo text ts e → All (IsToken text) ts }
{}

/// A text without a fault is the bytes of its blanks, comments and tokens joined.
pub fn joined_pieces()
    ensures { (text : List ℕ) (ts : List Token) → HasTokens text ts → IsJoined text ts }
{}

/// A piece in its form stands before a blank, and at the end of a text: so tokens can be written with spaces between them.
pub fn spaced_pieces()
    ensures blank { (signs : Bool) (p : Piece) (rest : List ℕ)
        → IsFormed signs p → Stands signs p (byte " " ∷ rest) }
    ensures end { (signs : Bool) (p : Piece) → IsFormed signs p → Stands signs p [] }
{}
