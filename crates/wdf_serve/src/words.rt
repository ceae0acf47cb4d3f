//! The words `run` and `watch`.
ghost use Rattle.std.specs.Prelude.{◌≡◌, is_some, map, string_bytes};
ghost use Rattle.wdf_serve.specs.Words.{is_threaded};

/// How the text of a run that threads make is written. Both are promised the same.
#[derive(Clone, Copy)]
pub enum Threaded {
    /// `run`: once the run has ended.
    Run,
    /// `watch`: while the run is made.
    Watch,
}

/// What the words after the program's name ask of threads: `run` alone or `watch` alone; `None` exactly for other words.
pub fn asked_of_threads(words: &[String]) -> Option<Threaded>
    ensures { is_some result ≡ is_threaded (map string_bytes words.now) }
{
    match words {
        [word] if word.as_str() == "run" => Some(Threaded::Run),
        [word] if word.as_str() == "watch" => Some(Threaded::Watch),
        _ => None,
    }
}
