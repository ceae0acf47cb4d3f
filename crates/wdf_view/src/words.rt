//! The words of the program.
ghost use Rattle.std.specs.Prelude.{◌≡◌, map, string_bytes};
ghost use Rattle.wdf_view.specs.Words.{form_of_word, form_of_words};

/// What the program was asked to write.
#[derive(Clone, Copy)]
pub enum Form {
    /// A page of HTML.
    Html,
    /// JSON for Perfetto and other viewers of traces.
    Perfetto,
}

/// The form that a word asks for, if it is one.
fn form_of_word(word: &str) -> Option<Form>
    ensures { result ≡ form_of_word word.now }
{
    if word == "html" {
        Some(Form::Html)
    } else if word == "perfetto" {
        Some(Form::Perfetto)
    } else {
        None
    }
}

/// The form that the words after the program's name ask for, if they are one.
pub(crate) fn form_of(words: &[String]) -> Option<Form>
    ensures { result ≡ form_of_words (map string_bytes words.now) }
{
    match words {
        [word] => form_of_word(word.as_str()),
        _ => None,
    }
}
