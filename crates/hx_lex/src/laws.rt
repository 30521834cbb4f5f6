//! What the definition of a line's tokens says of each of them.

ghost use Rattle.std.specs.Prelude.{◌≡◌, ℕ, List, Ok};
ghost use Rattle.std.specs.List.{AllByRecursion};
ghost use Rattle.std.specs.Str.{IsUtf8};
ghost use Rattle.hx_lex.specs.declared.token.Token.{Token};
ghost use Rattle.hx_lex.specs.Letters.{IsWord};
ghost use Rattle.hx_lex.specs.Lines.{tokens_of};
ghost use Rattle.hx_lex.specs.Spelling.{IsTokenOf};

/// Each token of a line is a slice of it, and is spelled there as its kind wants.
pub fn tokens_are_spelled()
    ensures { (line : List ℕ) (ts : List Token) → tokens_of line ≡ Ok ts
        → AllByRecursion (IsTokenOf line) ts }
{}

/// A word is ASCII, so a text.
pub fn word_is_utf8()
    ensures { (bytes : List ℕ) → IsWord bytes → IsUtf8 bytes }
{}
