//! The words of the text for enums: each table both ways, and the law that a word is read back.
ghost use Rattle.std.specs.Prelude.{◌≡◌, Some};
ghost use Rattle.wdf_scene.specs.Words as words;

use wdf_base::{
    Access, ContextWord, DeferredKind, ExecutionLevel, Operator, PlainKind, RequestForm, Scope,
};

/// Each variant, in order.
pub const PLAIN_KINDS: [PlainKind; 4] = [
    PlainKind::Object,
    PlainKind::SpinLock,
    PlainKind::WaitLock,
    PlainKind::Request,
];

/// The word of a kind of class without a parent.
pub fn plain_kind_word(x: PlainKind) -> &'static str
    ensures { result.now ≡ words.plain_kind_word x }
{
    match x {
        PlainKind::Object => "object",
        PlainKind::SpinLock => "spinlock",
        PlainKind::WaitLock => "waitlock",
        PlainKind::Request => "request",
    }
}

/// The kind of class without a parent with this word, if there is one.
pub fn plain_kind_from_word(word: &[u8]) -> Option<PlainKind>
    ensures { result ≡ words.plain_kind_of word.now }
{
    PLAIN_KINDS
        .iter()
        .copied()
        .find(|x| plain_kind_word(*x).as_bytes() == word)
}

/// The table of words of `PlainKind`: it is read back from its word, and no other word gives it.
pub fn plain_kind_words(x: PlainKind, word: &[u8])
    ensures back { words.plain_kind_of (words.plain_kind_word x) ≡ Some x }
    ensures only { words.plain_kind_of word.now ≡ Some x → words.plain_kind_word x ≡ word.now }
{}

/// Each variant, in order.
pub const DEFERRED_KINDS: [DeferredKind; 3] = [
    DeferredKind::Dpc,
    DeferredKind::Timer,
    DeferredKind::WorkItem,
];

/// The word of a kind of class with a parent.
pub fn deferred_kind_word(x: DeferredKind) -> &'static str
    ensures { result.now ≡ words.deferred_kind_word x }
{
    match x {
        DeferredKind::Dpc => "dpc",
        DeferredKind::Timer => "timer",
        DeferredKind::WorkItem => "workitem",
    }
}

/// The kind of class with a parent with this word, if there is one.
pub fn deferred_kind_from_word(word: &[u8]) -> Option<DeferredKind>
    ensures { result ≡ words.deferred_kind_of word.now }
{
    DEFERRED_KINDS
        .iter()
        .copied()
        .find(|x| deferred_kind_word(*x).as_bytes() == word)
}

/// The table of words of `DeferredKind`: it is read back from its word, and no other word gives it.
pub fn deferred_kind_words(x: DeferredKind, word: &[u8])
    ensures back { words.deferred_kind_of (words.deferred_kind_word x) ≡ Some x }
    ensures only { words.deferred_kind_of word.now ≡ Some x → words.deferred_kind_word x ≡ word.now }
{}

/// Each variant, in order.
pub const SCOPES: [Scope; 3] = [Scope::PerDevice, Scope::PerQueue, Scope::Unscoped];

/// The word of a scope.
pub fn scope_word(x: Scope) -> &'static str
    ensures { result.now ≡ words.scope_word x }
{
    match x {
        Scope::PerDevice => "device",
        Scope::PerQueue => "queue",
        Scope::Unscoped => "none",
    }
}

/// The scope with this word, if there is one.
pub fn scope_from_word(word: &[u8]) -> Option<Scope>
    ensures { result ≡ words.scope_of word.now }
{
    SCOPES
        .iter()
        .copied()
        .find(|x| scope_word(*x).as_bytes() == word)
}

/// The table of words of `Scope`: it is read back from its word, and no other word gives it.
pub fn scope_words(x: Scope, word: &[u8])
    ensures back { words.scope_of (words.scope_word x) ≡ Some x }
    ensures only { words.scope_of word.now ≡ Some x → words.scope_word x ≡ word.now }
{}

/// Each variant, in order.
pub const EXECUTION_LEVELS: [ExecutionLevel; 2] = [
    ExecutionLevel::Passive,
    ExecutionLevel::Dispatch,
];

/// The word of an execution level.
pub fn level_word(x: ExecutionLevel) -> &'static str
    ensures { result.now ≡ words.level_word x }
{
    match x {
        ExecutionLevel::Passive => "passive",
        ExecutionLevel::Dispatch => "dispatch",
    }
}

/// The execution level with this word, if there is one.
pub fn level_from_word(word: &[u8]) -> Option<ExecutionLevel>
    ensures { result ≡ words.level_of word.now }
{
    EXECUTION_LEVELS
        .iter()
        .copied()
        .find(|x| level_word(*x).as_bytes() == word)
}

/// The table of words of `ExecutionLevel`: it is read back from its word, and no other word gives it.
pub fn level_words(x: ExecutionLevel, word: &[u8])
    ensures back { words.level_of (words.level_word x) ≡ Some x }
    ensures only { words.level_of word.now ≡ Some x → words.level_word x ≡ word.now }
{}

/// Each variant, in order.
pub const REQUEST_FORMS: [RequestForm; 3] = [
    RequestForm::Read,
    RequestForm::Write,
    RequestForm::Control,
];

/// The word of a form of requests.
pub fn form_word(x: RequestForm) -> &'static str
    ensures { result.now ≡ words.form_word x }
{
    match x {
        RequestForm::Read => "read",
        RequestForm::Write => "write",
        RequestForm::Control => "control",
    }
}

/// The form of requests with this word, if there is one.
pub fn form_from_word(word: &[u8]) -> Option<RequestForm>
    ensures { result ≡ words.form_of word.now }
{
    REQUEST_FORMS
        .iter()
        .copied()
        .find(|x| form_word(*x).as_bytes() == word)
}

/// The table of words of `RequestForm`: it is read back from its word, and no other word gives it.
pub fn form_words(x: RequestForm, word: &[u8])
    ensures back { words.form_of (words.form_word x) ≡ Some x }
    ensures only { words.form_of word.now ≡ Some x → words.form_word x ≡ word.now }
{}

/// Each variant, in order.
pub const ACCESSES: [Access; 2] = [Access::Read, Access::Write];

/// The word of an access.
pub fn access_word(x: Access) -> &'static str
    ensures { result.now ≡ words.access_word x }
{
    match x {
        Access::Read => "read",
        Access::Write => "write",
    }
}

/// The access with this word, if there is one.
pub fn access_from_word(word: &[u8]) -> Option<Access>
    ensures { result ≡ words.access_of word.now }
{
    ACCESSES
        .iter()
        .copied()
        .find(|x| access_word(*x).as_bytes() == word)
}

/// The table of words of `Access`: it is read back from its word, and no other word gives it.
pub fn access_words(x: Access, word: &[u8])
    ensures back { words.access_of (words.access_word x) ≡ Some x }
    ensures only { words.access_of word.now ≡ Some x → words.access_word x ≡ word.now }
{}

/// Each variant, in order.
pub const OPERATORS: [Operator; 12] = [
    Operator::Add,
    Operator::Subtract,
    Operator::Multiply,
    Operator::Divide,
    Operator::Remainder,
    Operator::BitAnd,
    Operator::BitOr,
    Operator::BitXor,
    Operator::Equals,
    Operator::Differs,
    Operator::Below,
    Operator::AtMost,
];

/// The word of each variant, in the order of the enum.
const OPERATOR_WORDS: [&str; 12] = [
    "+", "-", "*", "/", "%", "&", "|", "^", "==", "!=", "<", "<=",
];

/// The word of an operator.
pub fn operator_word(x: Operator) -> &'static str
    ensures { result.now ≡ words.operator_word x }
{
    OPERATOR_WORDS[x as usize]
}

/// The operator with this word, if there is one.
pub fn operator_from_word(word: &[u8]) -> Option<Operator>
    ensures { result ≡ words.operator_of word.now }
{
    OPERATORS
        .iter()
        .copied()
        .find(|x| operator_word(*x).as_bytes() == word)
}

/// The table of words of `Operator`: it is read back from its word, and no other word gives it.
pub fn operator_words(x: Operator, word: &[u8])
    ensures back { words.operator_of (words.operator_word x) ≡ Some x }
    ensures only { words.operator_of word.now ≡ Some x → words.operator_word x ≡ word.now }
{}

/// Each variant, in order.
pub const CONTEXT_WORDS: [ContextWord; 6] = [
    ContextWord::OwnObject,
    ContextWord::NearestDevice,
    ContextWord::OwnRequest,
    ContextWord::RequestLength,
    ContextWord::RequestCode,
    ContextWord::CompletionStatus,
];

/// The word of a part of the running callback.
pub fn context_word(x: ContextWord) -> &'static str
    ensures { result.now ≡ words.context_word x }
{
    match x {
        ContextWord::OwnObject => "self",
        ContextWord::NearestDevice => "device",
        ContextWord::OwnRequest => "request",
        ContextWord::RequestLength => "length",
        ContextWord::RequestCode => "code",
        ContextWord::CompletionStatus => "status",
    }
}

/// The part of the running callback with this word, if there is one.
pub fn context_from_word(word: &[u8]) -> Option<ContextWord>
    ensures { result ≡ words.context_of word.now }
{
    CONTEXT_WORDS
        .iter()
        .copied()
        .find(|x| context_word(*x).as_bytes() == word)
}

/// The table of words of `ContextWord`: it is read back from its word, and no other word gives it.
pub fn context_words(x: ContextWord, word: &[u8])
    ensures back { words.context_of (words.context_word x) ≡ Some x }
    ensures only { words.context_of word.now ≡ Some x → words.context_word x ≡ word.now }
{}
