// A law of lines: the function does nothing, and its clause is the law.
ghost use Rattle.std.specs.Prelude.{◌≡◌, ℕ, List};
ghost use Rattle.api_serve.specs.Lines.{HasLines};

/// An input has one list of lines.
pub fn an_input_has_one_list_of_lines()
    ensures { (input : List ℕ) (lines others : List (List ℕ)) → HasLines input lines → HasLines input others → lines ≡ others }
{}
