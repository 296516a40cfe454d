// Laws of the grammar's definitions, in the words of RFC 8259.
ghost use Rattle.std.specs.Prelude.{◌≡◌, ℕ, List, Some, IsTrue, is_some, ◌↔◌};
ghost use Rattle.json_text.specs.Numeral.{numeral, IsNumeral};
ghost use Rattle.json_text.specs.Text.{plain, string_at, IsContent};

/// A numeral spells something exactly where it is `[ minus ] int [ frac ] [ exp ]` (section 6).
pub fn numerals_are_written_so()
    ensures { (bytes : List ℕ) → IsTrue (is_some (numeral bytes)) ↔ IsNumeral bytes }
{}

/// Bytes begin with the content of a string, its quote and these bytes exactly where they are
/// unescaped characters, short escapes, `\uXXXX` and surrogate pairs, a quote, and these (section 7).
pub fn strings_are_written_so()
    ensures { (bytes content rest : List ℕ) → (string_at plain bytes ≡ Some (content, rest)) ↔ IsContent bytes content rest }
{}
