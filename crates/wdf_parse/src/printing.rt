//! A scene is printed in canonical form.
ghost use Rattle.std.specs.Prelude.{◌≡◌, ◌++◌, OnOk, IfOk, List, ℕ};
ghost use Rattle.wdf_parse.specs.Canonical.{canonical_text};
ghost use Rattle.wdf_parse.specs.Printing as printing;
ghost use Rattle.wdf_parse.specs.StandsFor.{StandsFor};

use std::alloc::Global;
use wdf_base::Memory;
use wdf_scene::{NumberedLine, Scene};
use wdf_scene_lines::add_line;
use wdf_tokens::{Keyword, Token, keyword_token, push_line};

/// Adds a line of the scene. `tokens` is room to work in.
fn print_line(
    out: &mut Vec<u8>,
    tokens: &mut Vec<Token>,
    scene: &Scene,
    line: &NumberedLine,
) -> Result<(), Memory>
    ensures { OnOk result (out.new.items ≡ out.old.items ++ printing.scene_line_text scene.now.exprs line.now) }
{
    tokens.clear();
    add_line(tokens, scene, &line.form, line.picks.as_slice())?;
    push_line(out, tokens)
}

fn print_version(out: &mut Vec<u8>, version: u8) -> Result<(), Memory>
    ensures { OnOk result (out.new.items ≡ out.old.items ++ printing.version_text version) }
{
    if version == 2 {
        push_line(out, &[keyword_token(Keyword::Version), Token::Number(2)])
    } else {
        Ok(())
    }
}

#[tactic(auto, unfolding(crate::specs::Printing::printed))]
fn print_scene(alloc: Global, scene: &Scene) -> Result<Vec<u8>, Memory>
    ensures { IfOk result (λ text. text.items ≡ printing.printed scene.now) }
{
    let mut out = Vec::new(alloc);
    let mut tokens = Vec::new(alloc);
    print_version(&mut out, scene.version)?;
    for line in scene.lines.as_slice() {
        print_line(&mut out, &mut tokens, scene, line)?;
    }
    Ok(out)
}

/// The canonical text of a scene: one space between two tokens, and no empty line.
///
/// # Errors
///
/// [`Memory`] where memory was refused.
pub fn print(alloc: Global, scene: &Scene) -> Result<Vec<u8>, Memory>
    ensures text { IfOk result (λ text. text.items ≡ printing.printed scene.now) }
    ensures canonical { (source : List ℕ) (stands : StandsFor source scene.now) → IfOk result (λ text. text.items ≡ canonical_text scene.now.version stands.ws) }
{
    print_scene(alloc, scene)
}
