//! What holds of the tokens of a line. The function does nothing: its contract is the law.
ghost use Rattle.std.specs.Prelude.{◌≡◌, List, Ok, IsTrue};
ghost use Rattle.std.specs.List.{list_all};
ghost use Rattle.wdf_tokens.specs.declared.token.Token.{Token};
ghost use Rattle.wdf_tokens.specs.TokenTexts.{line_bytes};
ghost use Rattle.wdf_tokens.specs.Tokens.{line_reading};
ghost use Rattle.wdf_tokens.specs.WellFormed.{is_token};

/// Tokens that are spelled with one blank between them are read again.
pub fn spelled_tokens_are_read()
    ensures { (ts : List Token) → IsTrue (list_all is_token ts) → line_reading (line_bytes ts) ≡ Ok ts }
{}
