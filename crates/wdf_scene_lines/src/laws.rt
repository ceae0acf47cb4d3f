//! What holds of the tokens of each line. The function does nothing: its contract is the law.
ghost use Rattle.std.specs.Prelude.{◌≡◌, List, Some, IsTrue};
ghost use Rattle.std.specs.List.{list_all};
ghost use Rattle.wdf_scene.specs.Written.{Written, is_written};
ghost use Rattle.wdf_tokens.specs.declared.token.Token.{Token};
ghost use Rattle.wdf_tokens.specs.WellFormed.{is_token};
ghost use Rattle.wdf_scene_lines.specs.Reading.{read_written};
ghost use Rattle.wdf_scene_lines.specs.Spelling.{written_tokens};

/// A line of the language is read from the tokens that spell it, and nothing else is read. An expression is
/// read as one tree.
pub fn spelled_lines_are_read()
    ensures read { (w : Written) → IsTrue (is_written w) → read_written (written_tokens w) ≡ Some w }
    ensures spelled { (ts : List Token) (w : Written) → IsTrue (list_all is_token ts) → read_written ts ≡ Some w → written_tokens w ≡ ts }
    ensures written { (ts : List Token) (w : Written) → IsTrue (list_all is_token ts) → read_written ts ≡ Some w → IsTrue (is_written w) }
{}
