//! The first refusal of a text. The functions do nothing: their contracts are the laws. `specs/FirstRefusal.antt`
//! says it as a relation between a text and a refusal.
ghost use Rattle.std.specs.Prelude.{◌≡◌, ℕ, List, Err};
ghost use Rattle.wdf_parse.specs.declared.refusal.ParseRefusal.{ParseRefusal};
ghost use Rattle.wdf_parse.specs.Texts.{reading};
ghost use Rattle.law_text.specs.FirstRefusal.{IsFirstRefusal};

/// What the reading of a text says as its refusal is the first refusal that the text has. The lines before it are
/// spelled by lines of the language that may come where they do. After them comes one of these:
///
/// - The next line has a foreign byte.
/// - It has none, and after whole pieces of it comes no token or too large a number.
/// - It has tokens, and they are no line, or one that may not come there.
/// - The text ends there, before its first three lines or inside a block.
///
/// And each text that has such a first refusal is refused so.
pub fn refusals_are_first()
    ensures told { (text : List ℕ) (e : ParseRefusal) → reading text ≡ Err e → IsFirstRefusal text e }
    ensures each { (text : List ℕ) (e : ParseRefusal) → IsFirstRefusal text e → reading text ≡ Err e }
{}
