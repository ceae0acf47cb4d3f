//! What holds of each text and its scene. The functions do nothing: their contracts are the laws.
ghost use Rattle.std.specs.Prelude.{◌≡◌, Ok};
ghost use Rattle.wdf_scene.specs.declared.scene.Scene.{Scene};
ghost use Rattle.wdf_scene.specs.Naming.{HasProperNames};
ghost use Rattle.wdf_scene.specs.Written.{IsScene};
ghost use Rattle.wdf_parse.specs.Laws.{IsReadBack};
ghost use Rattle.wdf_parse.specs.StandsFor.{StandsFor};
ghost use Rattle.wdf_parse.specs.Texts.{reading};

/// The scene that is read is the one that stands for the text: no other does.
pub fn one_scene(text: &[u8])
    ensures read { (scene : Scene) → StandsFor text.now scene → reading text.now ≡ Ok scene }
    ensures one { (a b : Scene) → StandsFor text.now a → StandsFor text.now b → a ≡ b }
{}

/// The printed text of a scene that stands for a text is read back, and gives the same scene but for
/// line numbers.
pub fn printed_is_read_back(text: &[u8])
    ensures { (scene : Scene) → StandsFor text.now scene → IsReadBack scene }
{}

/// A scene that stands for a text has lines of the language, and declares names of the language.
pub fn scenes_are_well_formed(text: &[u8])
    ensures lines { (scene : Scene) → StandsFor text.now scene → IsScene scene }
    ensures names { (scene : Scene) → StandsFor text.now scene → HasProperNames scene }
{}
