//! The fixed words of the language.
ghost use Rattle.std.specs.Prelude.{◌≡◌, ◌≤◌, length, find};
ghost use Rattle.std.specs.Str.{bytes_eq};
ghost use Rattle.wdf_tokens.specs.Keywords.{keyword_word, keyword_of, with_letter, alike};

/// A fixed word of the language.
#[derive(Clone, Copy)]
pub enum Keyword {
    Version,
    Cpus,
    Limit,
    Objects,
    Driver,
    Class,
    Device,
    Interrupt,
    Queue,
    Target,
    App,
    Pnp,
    Order,
    On,
    End,
    Scope,
    Level,
    Serialize,
    Period,
    Register,
    When,
    At,
    Default,
    For,
    Power,
    Zero,
    Picks,
    Let,
    Call,
    Get,
    Put,
    If,
    Else,
    Repeat,
    Spend,
    Log,
    Return,
    Working,
    Sequential,
    Parallel,
    Manual,
    Inherit,
    Off,
    Passive,
    After,
    Set,
    Raise,
    Lower,
    Read,
    Write,
    Control,
    Cancel,
}

/// Each variant, in order.
pub const KEYWORDS: [Keyword; 52] = [
    Keyword::Version,
    Keyword::Cpus,
    Keyword::Limit,
    Keyword::Objects,
    Keyword::Driver,
    Keyword::Class,
    Keyword::Device,
    Keyword::Interrupt,
    Keyword::Queue,
    Keyword::Target,
    Keyword::App,
    Keyword::Pnp,
    Keyword::Order,
    Keyword::On,
    Keyword::End,
    Keyword::Scope,
    Keyword::Level,
    Keyword::Serialize,
    Keyword::Period,
    Keyword::Register,
    Keyword::When,
    Keyword::At,
    Keyword::Default,
    Keyword::For,
    Keyword::Power,
    Keyword::Zero,
    Keyword::Picks,
    Keyword::Let,
    Keyword::Call,
    Keyword::Get,
    Keyword::Put,
    Keyword::If,
    Keyword::Else,
    Keyword::Repeat,
    Keyword::Spend,
    Keyword::Log,
    Keyword::Return,
    Keyword::Working,
    Keyword::Sequential,
    Keyword::Parallel,
    Keyword::Manual,
    Keyword::Inherit,
    Keyword::Off,
    Keyword::Passive,
    Keyword::After,
    Keyword::Set,
    Keyword::Raise,
    Keyword::Lower,
    Keyword::Read,
    Keyword::Write,
    Keyword::Control,
    Keyword::Cancel,
];

/// The word of each variant, in the order of the enum.
const WORDS: [&str; 52] = [
    "version",
    "cpus",
    "limit",
    "objects",
    "driver",
    "class",
    "device",
    "interrupt",
    "queue",
    "target",
    "app",
    "pnp",
    "order",
    "on",
    "end",
    "scope",
    "level",
    "serialize",
    "period",
    "register",
    "when",
    "at",
    "default",
    "for",
    "power",
    "zero",
    "picks",
    "let",
    "call",
    "get",
    "put",
    "if",
    "else",
    "repeat",
    "spend",
    "log",
    "return",
    "working",
    "sequential",
    "parallel",
    "manual",
    "inherit",
    "off",
    "passive",
    "after",
    "set",
    "raise",
    "lower",
    "read",
    "write",
    "control",
    "cancel",
];

/// The keywords that begin with this letter; those that stand on most lines come first.
#[tactic(auto, unfolding(crate::specs::Keywords::with_letter))]
fn with_letter(letter: u8) -> &'static [Keyword]
    ensures { result.now ≡ with_letter letter }
{
    match letter {
        b'a' => &[Keyword::At, Keyword::App, Keyword::After],
        b'c' => &[
            Keyword::Call,
            Keyword::Cancel,
            Keyword::Class,
            Keyword::Control,
            Keyword::Cpus,
        ],
        b'd' => &[Keyword::Device, Keyword::Default, Keyword::Driver],
        b'e' => &[Keyword::End, Keyword::Else],
        b'f' => &[Keyword::For],
        b'g' => &[Keyword::Get],
        b'i' => &[Keyword::Interrupt, Keyword::If, Keyword::Inherit],
        b'l' => &[
            Keyword::Let,
            Keyword::Log,
            Keyword::Limit,
            Keyword::Level,
            Keyword::Lower,
        ],
        b'm' => &[Keyword::Manual],
        b'o' => &[Keyword::On, Keyword::Objects, Keyword::Order, Keyword::Off],
        b'p' => &[
            Keyword::Picks,
            Keyword::Put,
            Keyword::Parallel,
            Keyword::Pnp,
            Keyword::Period,
            Keyword::Power,
            Keyword::Passive,
        ],
        b'q' => &[Keyword::Queue],
        b'r' => &[
            Keyword::Read,
            Keyword::Return,
            Keyword::Repeat,
            Keyword::Register,
            Keyword::Raise,
        ],
        b's' => &[
            Keyword::Spend,
            Keyword::Set,
            Keyword::Scope,
            Keyword::Serialize,
            Keyword::Sequential,
        ],
        b't' => &[Keyword::Target],
        b'v' => &[Keyword::Version],
        b'w' => &[Keyword::Write, Keyword::When, Keyword::Working],
        b'z' => &[Keyword::Zero],
        _ => &[],
    }
}

/// The keywords with the first letter of a word; none for an empty word.
fn alike(word: &[u8]) -> &'static [Keyword]
    ensures { result.now ≡ alike word.now }
{
    match word.first() {
        Some(letter) => with_letter(*letter),
        None => &[],
    }
}

impl Keyword {
    /// The word itself.
    pub fn word(self) -> &'static str
        ensures word { result.now ≡ keyword_word self }
        ensures small { length result.now ≤ 32 }
    {
        WORDS[self as usize]
    }

    /// The keyword with this word, if there is one.
    #[tactic(auto, using(crate::proofs::KeywordLaws::found_alike))]
    pub fn from_word(word: &[u8]) -> Option<Keyword>
        ensures { result ≡ keyword_of word.now }
    {
        with_word(alike(word), word)
    }
}

/// The first of some keywords with this word.
fn with_word(keywords: &[Keyword], word: &[u8]) -> Option<Keyword>
    ensures { result ≡ find (λ x. bytes_eq (keyword_word x) word.now) keywords.now }
{
    keywords
        .iter()
        .copied()
        .find(|x| x.word().as_bytes() == word)
}
