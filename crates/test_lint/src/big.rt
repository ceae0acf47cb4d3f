//! A callback at the most states that a walk keeps. Each `if` that isn't decided, with an assignment in it, doubles the
//! states; a statement more at a place adds as many as there are there.
use crate::cases::{Due, answers, checked};
use std::alloc::{AllocError, Global};

const FRONT: &str =
    "cpus 1\nlimit 100\nobjects 16\ndevice D working\nqueue Q sequential\ndefault\non EvtIoRead\n";

const BACK: &str = "end\nend\nend\n";

/// The variables, each of which is 0 or 1 after its `if`.
static VARIABLES: [&str; 11] = ["a", "b", "c", "d", "e", "f", "g", "h", "i", "j", "k"];

/// Whether a statement more comes after so many of them: after 1, 4, 8, 9, 10 and 11 they add 2, 16, 256, 512, 1,024
/// and 2,048 states to the 6,142 of the `if`s, which makes 10,000.
fn has_more(doubled: usize) -> bool {
    matches!(doubled, 1 | 4 | 8 | 9 | 10 | 11)
}

/// The text with 10,000 states, or with so many statements more at the beginning, where there is one state.
fn text_of(alloc: Global, more: usize) -> Result<String, AllocError> {
    let mut text = String::new(alloc);
    text.push_str(FRONT)?;
    for _ in 0..more {
        text.push_str("spend 1\n")?;
    }
    for (n, variable) in VARIABLES.iter().enumerate() {
        text.push_str("if length\nlet ")?;
        text.push_str(variable)?;
        text.push_str(" = 1\nend\n")?;
        if has_more(n.saturating_add(1)) {
            text.push_str("spend 1\n")?;
        }
    }
    text.push_str(BACK)?;
    Ok(text)
}

/// Whether the text with so many statements more has exactly these findings.
fn has(alloc: Global, more: usize, due: &[Due]) -> bool {
    match text_of(alloc, more) {
        Ok(text) => answers(checked(alloc, text.as_bytes()), due),
        Err(_) => false,
    }
}

#[test]
fn a_callback_may_have_ten_thousand_states_and_no_more(rt: HostRuntime) {
    let size = Due {
        line: 7,
        rule: 0,
        path: &[],
    };
    assert!(rt; has(rt.alloc(), 0, &[]));
    assert!(rt; has(rt.alloc(), 1, &[size]));
}
