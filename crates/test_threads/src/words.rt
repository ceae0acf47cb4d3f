//! Words of no form, and one of another form.
use crate::call::STEADY;
use crate::rows::{Row, Text, first_wrong};
use crate::texts::ONE_READ;
use std::test::Fail;

const USAGE: Text = Text::Is(
    b"usage: kmdfsim check | order | seed N | run | replay | gen N | load N | idle | stack | lint | watch\n",
);

/// Words with the status and the text that are due.
static WORDS: [(&str, u8, Text); 9] = [
    ("", 2, USAGE),
    ("run 1", 2, USAGE),
    ("runs", 2, USAGE),
    ("ru", 2, USAGE),
    ("Run", 2, USAGE),
    ("run run", 2, USAGE),
    ("watch 1", 2, USAGE),
    ("run watch", 2, USAGE),
    ("check", 0, Text::Is(ONE_READ)),
];

#[test]
fn other_words_start_no_run(rt: HostRuntime) -> Result<(), Fail> {
    for (words, status, text) in &WORDS {
        let row = Row {
            words,
            input: ONE_READ,
            outside: STEADY,
            status: *status,
            text: *text,
        };
        assert_eq!(rt; first_wrong(&rt, rt.alloc(), &[row])?, None, "{words}");
    }
    Ok(())
}
