//! Scripts: expressions and statements, with numbers in place of names.
//!
//! # Choices
//!
//! - **What does a statement carry?** The line that it prints, the number of the statement that follows it, and for
//!   `if` and `repeat` where to go otherwise. The count of statements of the script is the end of the callback.
//! - **How does a `repeat` come round?** The end of its body is a statement of its own, `Again`. It prints the line
//!   of the `repeat`, and knows the body's first statement and the depth of its counter. It isn't counted against the
//!   limit of statements.
//! - **How are variables numbered?** From 0 in each callback, in the order of the lines that first assign them. So a
//!   frame keeps its sixteen variables in a row.
ghost use Rattle.std.specs.Prelude.{◌≡◌};

use crate::call::{CallKind, Callback};
use crate::declared::Declared;
use crate::ids::Handle;
use crate::items::{Items, MANY};
use crate::same::same_callback;
use crate::same_plan::same_declared;
use crate::value::Status;

/// An operator of expressions. Numbers wrap; a comparison gives 1 or 0.
#[derive(Clone, Copy, PartialEq, Eq)]
pub enum Operator {
    Add,
    Subtract,
    Multiply,
    Divide,
    Remainder,
    BitAnd,
    BitOr,
    BitXor,
    Equals,
    Differs,
    Below,
    AtMost,
}

/// A word of expressions that means a part of the running callback.
#[derive(Clone, Copy, PartialEq, Eq)]
pub enum ContextWord {
    /// `self`: the callback's object.
    OwnObject,
    /// `device`: its nearest device, or the driver object.
    NearestDevice,
    /// `request`: its request, or the number 0.
    OwnRequest,
    /// `length`: the request's length, or 0.
    RequestLength,
    /// `code`: the request's code, or 0.
    RequestCode,
    /// `status`: the completion status.
    CompletionStatus,
}

/// One node of an expression: an atom, or an operator with the numbers of its operands, each of
/// which is less than the node's own number.
#[derive(Clone, Copy, PartialEq, Eq)]
pub enum ExprNode {
    Number(u64),
    /// A variable of the callback, by its number among them.
    Variable(u8),
    /// A declared device, queue, interrupt or target.
    Object(Handle),
    Literal(Status),
    Context(ContextWord),
    Binary {
        operator: Operator,
        left: u32,
        right: u32,
    },
}

/// An argument of a framework call in a script.
#[derive(Clone, Copy, PartialEq, Eq)]
pub enum ArgNode {
    /// The call has no such argument.
    NoArgument,
    /// The number of an expression.
    Expression(u32),
    /// The number of a class.
    OfClass(u16),
}

/// What a statement does. Variables, expressions, registers and statements are given by their numbers.
#[derive(Clone, Copy, PartialEq, Eq)]
pub enum Act {
    Let {
        variable: u8,
        value: u32,
    },
    Call {
        kind: CallKind,
        /// The variable that gets the answer.
        into: Option<u8>,
        a: ArgNode,
        b: ArgNode,
        c: ArgNode,
    },
    Get {
        variable: u8,
        register: u32,
    },
    Put {
        register: u32,
        value: u32,
    },
    /// The statement after it is the first branch's.
    If {
        test: u32,
        /// Where to go on where the number is 0.
        otherwise: u32,
    },
    /// The statement after it is the body's first.
    Repeat {
        count: u32,
        /// How many `repeat` are round it in the callback.
        depth: u8,
        /// Where to go on where the number is 0.
        past: u32,
    },
    /// The end of a `repeat`'s body; the statement after it comes after the last run.
    Again {
        depth: u8,
        /// The body's first statement.
        body: u32,
    },
    Spend {
        ticks: u32,
    },
    Log {
        value: u32,
    },
    Return {
        value: u32,
    },
}

/// A statement of a callback.
#[derive(Clone, Copy, PartialEq, Eq)]
pub struct Statement {
    /// The line of the text; for the end of a `repeat`'s body, that of the `repeat`.
    pub line: u32,
    /// The number of the statement that follows it, where it doesn't go elsewhere. The number of
    /// statements means the callback's end.
    pub next: u32,
    pub act: Act,
}

/// The statements of a callback that is declared.
#[derive(Drop)]
pub struct Script {
    pub callback: Callback,
    /// What it is declared on.
    pub owner: Declared,
    /// The line of its `on`.
    pub line: u32,
    pub statements: Items<Statement, MANY>,
}

impl Script {
    ghost use Rattle.wdf_base.specs.Plan.{is_script_of};

    /// Whether it is the script of this callback on this object.
    pub fn is_of(&self, callback: Callback, owner: &Declared) -> bool
        ensures { result ≡ is_script_of callback owner.now self.now }
    {
        same_callback(self.callback, callback) && same_declared(&self.owner, owner)
    }
}

/// An app, a device or a target as one that posts.
#[derive(Drop)]
pub struct AgentInfo {
    /// The number of its name.
    pub name: u32,
    /// What its lines post, in their order.
    pub posts: Items<crate::declared::PostLine, MANY>,
}
