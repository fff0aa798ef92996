//! Laws that hold for the tokens of any bytes, for programs that write scripts.

ghost use Rattle.std.specs.Prelude.{ℕ, List, IsTrue};
ghost use Rattle.mv_lex.specs.declared.token.Kind.{Kind};
ghost use Rattle.mv_lex.specs.Spelling.{IsSpelled};
ghost use Rattle.mv_lex.specs.Tokens.{IsLongest, is_parted};

/// A token followed by a blank or by the end of the input is the longest that fits.
pub fn parted_tokens()
    ensures { (kind : Kind) (text after : List ℕ) → IsTrue (is_parted after) → IsSpelled kind text after → IsLongest kind text after }
{}
