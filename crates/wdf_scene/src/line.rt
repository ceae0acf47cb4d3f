use wdf_base::{
    Access, Ask, CallKind, Callback, ContextWord, DeferredKind, DispatchKind, ExecutionLevel,
    Items, MANY, Name, Operator, PlainKind, RequestForm, Scope, Status,
};

/// The level of an interrupt as the text gives it.
#[derive(Clone, Copy, Debug, PartialEq, Eq)]
pub enum InterruptLevel {
    Numbered(u64),
    /// The interrupt is handled at PASSIVE_LEVEL, which version 2 has.
    AtPassive,
}

/// What a device does, with names.
#[derive(Clone, Copy, Debug, PartialEq, Eq)]
pub enum SceneAction {
    Set { register: Name, value: u64 },
    Raise { interrupt: Name },
    Lower { interrupt: Name },
}

/// An argument of a framework call in the text.
#[derive(Clone, Copy, Debug, PartialEq, Eq)]
pub enum SceneArg {
    /// The call has no such argument.
    NoArgument,
    /// The number of an expression.
    Expression(u32),
    /// The name of a class.
    OfClass(Name),
}

/// One node of an expression: an atom, or an operator with the numbers of its operands, each of
/// which is less than the node's own number.
#[derive(Clone, Copy, PartialEq, Eq)]
pub enum SceneExpr {
    Number(u64),
    /// A variable or a declared object.
    Named(Name),
    Literal(Status),
    Context(ContextWord),
    Binary {
        operator: Operator,
        left: u32,
        right: u32,
    },
}

/// What comes before the one expression of a statement.
#[derive(Clone, Copy)]
pub enum StatementHead {
    Let(Name),
    Put(Name),
    If,
    Repeat,
    Spend,
    Log,
    Return,
}

/// A line of the text with its names, its numbers and the numbers of its expressions. No line stands
/// for `version 2`: that is the version of the scene.
#[derive(Clone, Copy, Debug, PartialEq, Eq)]
pub enum SceneLine {
    Cpus(u64),
    Limit(u64),
    Objects(u64),
    Driver,
    Class {
        name: Name,
        kind: PlainKind,
    },
    DeferredClass {
        name: Name,
        kind: DeferredKind,
        parent: Option<Name>,
    },
    Device {
        name: Name,
        working: bool,
    },
    Interrupt {
        name: Name,
        level: InterruptLevel,
    },
    Queue {
        name: Name,
        dispatch: DispatchKind,
    },
    Target {
        name: Name,
        delay: u64,
        status: Status,
        depth: u64,
    },
    App {
        name: Name,
    },
    Pnp,
    Order,
    On {
        callback: Callback,
    },
    End,
    /// None is `scope inherit`.
    Scope {
        scope: Option<Scope>,
    },
    /// None is `level inherit`.
    Level {
        level: Option<ExecutionLevel>,
    },
    Serialize,
    Period {
        ticks: u64,
    },
    Register {
        name: Name,
        value: u64,
    },
    When {
        access: Access,
        register: Name,
        action: SceneAction,
        after: u64,
    },
    /// `at` in a device.
    At {
        tick: u64,
        action: SceneAction,
    },
    Default,
    For {
        form: RequestForm,
    },
    PowerOff,
    Zero,
    AtRead {
        tick: u64,
        device: Name,
        length: u64,
    },
    AtWrite {
        tick: u64,
        device: Name,
        length: u64,
    },
    AtControl {
        tick: u64,
        device: Name,
        code: u64,
        length: u64,
    },
    AtCancel {
        tick: u64,
        /// The request line of the app that it names, counted from 1.
        request: u64,
    },
    /// `at` in the `pnp` block.
    AtAsk {
        tick: u64,
        ask: Ask,
        device: Name,
    },
    /// Its numbers are kept beside it.
    Picks,
    Let {
        variable: Name,
        value: u32,
    },
    Call {
        kind: CallKind,
        /// The variable that gets the answer.
        into: Option<Name>,
        a: SceneArg,
        b: SceneArg,
        c: SceneArg,
    },
    Get {
        variable: Name,
        register: Name,
    },
    Put {
        register: Name,
        value: u32,
    },
    If {
        test: u32,
    },
    Else,
    Repeat {
        count: u32,
    },
    Spend {
        ticks: u32,
    },
    Log {
        value: u32,
    },
    Return {
        value: u32,
    },
}

/// A line of the text with its number, and with its numbers if it is a `picks` line.
#[derive(Drop)]
pub struct NumberedLine {
    /// The line's number in the text, from 1.
    pub number: u32,
    pub form: SceneLine,
    /// What follows the word `picks`.
    pub picks: Items<u64, MANY>,
}
