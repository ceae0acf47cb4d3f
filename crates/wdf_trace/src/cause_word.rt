ghost use Rattle.std.specs.Prelude.{◌≡◌};
ghost use Rattle.wdf_trace.specs.CauseWords.{cause_word_text, cause_word_of};

/// The word that a cause begins with.
#[derive(Clone, Copy)]
pub enum CauseWord {
    Frame,
    Lock,
    Request,
    Work,
    Stopped,
    Unpowered,
    Manual,
    Behind,
    Full,
    Scope,
    Cpus,
    References,
    Child,
    Sent,
}

/// Each variant, in order.
pub const CAUSE_WORDS: [CauseWord; 14] = [
    CauseWord::Frame,
    CauseWord::Lock,
    CauseWord::Request,
    CauseWord::Work,
    CauseWord::Stopped,
    CauseWord::Unpowered,
    CauseWord::Manual,
    CauseWord::Behind,
    CauseWord::Full,
    CauseWord::Scope,
    CauseWord::Cpus,
    CauseWord::References,
    CauseWord::Child,
    CauseWord::Sent,
];

/// The word of each variant, in the order of the enum.
const TEXTS: [&[u8]; 14] = [
    b"frame",
    b"lock",
    b"request",
    b"work",
    b"stopped",
    b"unpowered",
    b"manual",
    b"behind",
    b"full",
    b"scope",
    b"cpus",
    b"references",
    b"child",
    b"sent",
];

impl CauseWord {
    /// The word itself.
    fn text(self) -> &'static [u8]
        ensures { result.now ≡ cause_word_text self }
    {
        TEXTS[self as usize]
    }

    /// The word that reads so, if it is one.
    pub fn from_word(word: &[u8]) -> Option<CauseWord>
        ensures { result ≡ cause_word_of word.now }
    {
        CAUSE_WORDS.iter().copied().find(|x| x.text() == word)
    }
}
