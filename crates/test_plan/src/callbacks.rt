//! The callbacks that a plan should have, with their statements.
use crate::answers::part;
use wdf_base::{Callback, Declared, Plan, Script, Statement};

/// What a callback is declared on.
#[derive(Clone, Copy)]
pub enum Owner {
    /// The object with this id.
    Object(usize),
    /// The class with this number.
    Class(u16),
}

/// A callback, what it is declared on, its line, and how many statements it has.
pub type Scripted = (Callback, Owner, u32, usize);

/// What a callback is declared on, among the objects from id 1 on.
fn declared(objects: &[Declared], owner: Owner) -> Option<Declared> {
    match owner {
        Owner::Object(id) => objects.get(id.checked_sub(1)?).copied(),
        Owner::Class(class) => Some(Declared::OfClass(class)),
    }
}

/// Whether a script is this callback, with these statements.
fn is_script(
    script: &Script,
    objects: &[Declared],
    due: Scripted,
    statements: &[Statement],
) -> bool {
    let (callback, owner, line, _) = due;
    script.callback == callback
        && Some(script.owner) == declared(objects, owner)
        && script.line == line
        && script.statements.as_slice() == statements
}

/// Whether a plan has these callbacks, with all these statements one after the other.
pub fn has_scripts(
    plan: &Plan,
    objects: &[Declared],
    scripts: &[Scripted],
    statements: &[Statement],
) -> bool {
    let mut from = 0;
    for (script, due) in plan.scripts.as_slice().iter().zip(scripts) {
        let count = due.3;
        if !is_script(script, objects, *due, part(statements, from, count)) {
            return false;
        }
        from = count.saturating_add(from);
    }
    plan.scripts.len() as usize == scripts.len() && from == statements.len()
}
