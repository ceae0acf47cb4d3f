//! Where the trace begins in an input of `replay`. The functions do nothing: their contracts are the laws.
ghost use Rattle.std.specs.Prelude.{◌≡◌, ◌↔◌, ℕ, true, List, [], ◌∷◌, IsTrue, Ok, codes};
ghost use Rattle.std.specs.List.{take_while};
ghost use Rattle.wdf_scene.specs.declared.scene.Scene.{Scene};
ghost use Rattle.wdf_parse.specs.StandsFor.{StandsFor};
ghost use Rattle.law_text.specs.Marks.{has_no_mark, EndsInFeed, IsParted};
ghost use Rattle.wdf_split.specs.Inputs.{is_mark, is_within};
ghost use Rattle.wdf_tokens.specs.Tokens.{line_reading};
ghost use Rattle.wdf_tokens.specs.declared.token.Token.TheVariants as token;

/// A line ends the scenario of an input, and its trace begins after it, exactly where the line is read as one token of
/// the scenario's language: the word `trace`.
pub fn marks_are_one_token()
    ensures { (line : List ℕ) → IsTrue (is_mark line) ↔ (line_reading (take_while is_within line) ≡ Ok (token.Word (codes "trace") ∷ [])) }
{}

/// No line of a text for which a scene stands is the line `trace`.
pub fn scenarios_have_no_mark()
    ensures { (text : List ℕ) (scene : Scene) → StandsFor text scene → has_no_mark text ≡ true }
{}

/// Let a scene stand for a scenario that ends in a line feed. Then the scenario, the line `trace` and any trace are an input
/// with that scenario and that trace.
pub fn inputs_are_parted()
    ensures { (scenario trace : List ℕ) (scene : Scene) → StandsFor scenario scene → EndsInFeed scenario → IsParted scenario trace }
{}
