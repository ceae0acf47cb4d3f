ghost use Rattle.std.specs.Prelude.{◌≡◌, find};
ghost use Rattle.std.specs.Str.{bytes_eq};
ghost use Rattle.wdf_trace.specs.Verbs.{verb_word, verb_of, with_letter, alike};

/// What an event does, as the third word of its line gives it. What the Plug and Play manager asks
/// has words of its own, but for `start`.
#[derive(Clone, Copy)]
pub enum Verb {
    Start,
    Step,
    Log,
    Spend,
    Get,
    Put,
    Call,
    Wait,
    Woke,
    Park,
    Unpark,
    End,
    Fault,
    Stage,
    Complete,
    Cleanup,
    Destroy,
    Read,
    Write,
    Control,
    Cancel,
    Set,
    Raise,
    Lower,
    Done,
    Tick,
}

/// Each variant, in order.
pub const VERBS: [Verb; 26] = [
    Verb::Start,
    Verb::Step,
    Verb::Log,
    Verb::Spend,
    Verb::Get,
    Verb::Put,
    Verb::Call,
    Verb::Wait,
    Verb::Woke,
    Verb::Park,
    Verb::Unpark,
    Verb::End,
    Verb::Fault,
    Verb::Stage,
    Verb::Complete,
    Verb::Cleanup,
    Verb::Destroy,
    Verb::Read,
    Verb::Write,
    Verb::Control,
    Verb::Cancel,
    Verb::Set,
    Verb::Raise,
    Verb::Lower,
    Verb::Done,
    Verb::Tick,
];

/// The word of each variant, in the order of the enum.
const WORDS: [&[u8]; 26] = [
    b"start",
    b"step",
    b"log",
    b"spend",
    b"get",
    b"put",
    b"call",
    b"wait",
    b"woke",
    b"park",
    b"unpark",
    b"end",
    b"fault",
    b"stage",
    b"complete",
    b"cleanup",
    b"destroy",
    b"read",
    b"write",
    b"control",
    b"cancel",
    b"set",
    b"raise",
    b"lower",
    b"done",
    b"tick",
];

/// The verbs that begin with this letter; those of most lines come first.
#[tactic(auto, unfolding(crate::specs::Verbs::with_letter))]
fn with_letter(letter: u8) -> &'static [Verb]
    ensures { result.now ≡ with_letter letter }
{
    match letter {
        b'c' => &[
            Verb::Call,
            Verb::Complete,
            Verb::Cleanup,
            Verb::Control,
            Verb::Cancel,
        ],
        b'd' => &[Verb::Done, Verb::Destroy],
        b'e' => &[Verb::End],
        b'f' => &[Verb::Fault],
        b'g' => &[Verb::Get],
        b'l' => &[Verb::Log, Verb::Lower],
        b'p' => &[Verb::Put, Verb::Park],
        b'r' => &[Verb::Read, Verb::Raise],
        b's' => &[Verb::Step, Verb::Start, Verb::Stage, Verb::Spend, Verb::Set],
        b't' => &[Verb::Tick],
        b'u' => &[Verb::Unpark],
        b'w' => &[Verb::Wait, Verb::Woke, Verb::Write],
        _ => &[],
    }
}

/// The verbs with the first letter of a word; none for an empty word.
fn alike(word: &[u8]) -> &'static [Verb]
    ensures { result.now ≡ alike word.now }
{
    match word.first() {
        Some(letter) => with_letter(*letter),
        None => &[],
    }
}

/// Of these verbs the first with this word.
fn with_word(verbs: &[Verb], word: &[u8]) -> Option<Verb>
    ensures { result ≡ find (λ x. bytes_eq (verb_word x) word.now) verbs.now }
{
    verbs.iter().copied().find(|x| x.word() == word)
}

impl Verb {
    /// The word of a verb.
    fn word(self) -> &'static [u8]
        ensures { result.now ≡ verb_word self }
    {
        WORDS[self as usize]
    }

    /// The verb with this word, if there is one.
    #[tactic(auto, using(crate::proofs::VerbLaws::found_alike))]
    pub fn from_word(word: &[u8]) -> Option<Verb>
        ensures { result ≡ verb_of word.now }
    {
        with_word(alike(word), word)
    }
}
