//! Words of the text, and what they are read as.
use wdf_base::{
    Access, ContextWord, DeferredKind, ExecutionLevel, Operator, PlainKind, RequestForm, Scope,
};
use wdf_scene::*;

/// What has a word in the text.
#[derive(Clone, Copy)]
enum Worded {
    Plain(PlainKind),
    Deferred(DeferredKind),
    Scope(Scope),
    Level(ExecutionLevel),
    Form(RequestForm),
    Access(Access),
    Operator(Operator),
    Context(ContextWord),
}

static WORDS: [(Worded, &str); 35] = [
    (Worded::Plain(PlainKind::Object), "object"),
    (Worded::Plain(PlainKind::SpinLock), "spinlock"),
    (Worded::Plain(PlainKind::WaitLock), "waitlock"),
    (Worded::Plain(PlainKind::Request), "request"),
    (Worded::Deferred(DeferredKind::Dpc), "dpc"),
    (Worded::Deferred(DeferredKind::Timer), "timer"),
    (Worded::Deferred(DeferredKind::WorkItem), "workitem"),
    (Worded::Scope(Scope::PerDevice), "device"),
    (Worded::Scope(Scope::PerQueue), "queue"),
    (Worded::Scope(Scope::Unscoped), "none"),
    (Worded::Level(ExecutionLevel::Passive), "passive"),
    (Worded::Level(ExecutionLevel::Dispatch), "dispatch"),
    (Worded::Form(RequestForm::Read), "read"),
    (Worded::Form(RequestForm::Write), "write"),
    (Worded::Form(RequestForm::Control), "control"),
    (Worded::Access(Access::Read), "read"),
    (Worded::Access(Access::Write), "write"),
    (Worded::Operator(Operator::Add), "+"),
    (Worded::Operator(Operator::Subtract), "-"),
    (Worded::Operator(Operator::Multiply), "*"),
    (Worded::Operator(Operator::Divide), "/"),
    (Worded::Operator(Operator::Remainder), "%"),
    (Worded::Operator(Operator::BitAnd), "&"),
    (Worded::Operator(Operator::BitOr), "|"),
    (Worded::Operator(Operator::BitXor), "^"),
    (Worded::Operator(Operator::Equals), "=="),
    (Worded::Operator(Operator::Differs), "!="),
    (Worded::Operator(Operator::Below), "<"),
    (Worded::Operator(Operator::AtMost), "<="),
    (Worded::Context(ContextWord::OwnObject), "self"),
    (Worded::Context(ContextWord::NearestDevice), "device"),
    (Worded::Context(ContextWord::OwnRequest), "request"),
    (Worded::Context(ContextWord::RequestLength), "length"),
    (Worded::Context(ContextWord::RequestCode), "code"),
    (Worded::Context(ContextWord::CompletionStatus), "status"),
];

/// The word of the text.
fn word_of(worded: Worded) -> &'static str {
    match worded {
        Worded::Plain(kind) => plain_kind_word(kind),
        Worded::Deferred(kind) => deferred_kind_word(kind),
        Worded::Scope(scope) => scope_word(scope),
        Worded::Level(level) => level_word(level),
        Worded::Form(form) => form_word(form),
        Worded::Access(access) => access_word(access),
        Worded::Operator(operator) => operator_word(operator),
        Worded::Context(part) => context_word(part),
    }
}

/// Whether it is read from this word.
fn is_read(worded: Worded, word: &[u8]) -> bool {
    match worded {
        Worded::Plain(kind) => plain_kind_from_word(word) == Some(kind),
        Worded::Deferred(kind) => deferred_kind_from_word(word) == Some(kind),
        Worded::Scope(scope) => scope_from_word(word) == Some(scope),
        Worded::Level(level) => level_from_word(word) == Some(level),
        Worded::Form(form) => form_from_word(word) == Some(form),
        Worded::Access(access) => access_from_word(word) == Some(access),
        Worded::Operator(operator) => operator_from_word(word) == Some(operator),
        Worded::Context(part) => context_from_word(word) == Some(part),
    }
}

#[test]
fn kinds_and_attributes_have_their_words(rt: HostRuntime) {
    for (worded, word) in &WORDS {
        assert!(rt; word_of(*worded) == *word, "{word}");
        assert!(rt; is_read(*worded, word.as_bytes()), "{word}");
    }
    assert!(rt; plain_kind_from_word(b"dpc").is_none());
    assert!(rt; deferred_kind_from_word(b"object").is_none());
    assert!(rt; scope_from_word(b"inherit").is_none());
    assert!(rt; access_from_word(b"control").is_none());
}

/// The laws are functions without a body: a caller gets their clauses.
#[test]
fn laws_of_words_may_be_used(_rt: HostRuntime) {
    let word = b"read";
    plain_kind_words(PlainKind::Object, word);
    deferred_kind_words(DeferredKind::Dpc, word);
    scope_words(Scope::Unscoped, word);
    level_words(ExecutionLevel::Passive, word);
    form_words(RequestForm::Read, word);
    access_words(Access::Read, word);
    operator_words(Operator::Add, word);
    context_words(ContextWord::OwnObject, word);
}
