//! Why an input has no plan.
ghost use Rattle.std.specs.Prelude.{◌≡◌, ◌++◌, codes, decimal};
ghost use Rattle.wdf_refusals.specs.Limits.{limit_word};
ghost use Rattle.wdf_output.specs.Refusals.{parse_line, parse_status, plan_line, plan_status, refusal_line, refusal_status};

use wdf_base::Memory;
use wdf_exit::Exit;
use wdf_input::InputError;
use wdf_lines::{Message, one_number, two_numbers};
use wdf_parse::ParseRefusal;
use wdf_plan::{Limit, PlanRefusal};

/// The line of out of memory.
const NO_MEMORY: &[u8] = b"out of memory\n";

/// What is written before the line's number where a text is no scene.
const PARSE: &[u8] = b"parse refused at line ";

/// What is written before the line's number where a scene has no plan.
const PLAN: &[u8] = b"plan refused at line ";

/// Why an input has no plan.
#[derive(Clone, Copy)]
pub enum Refusal {
    /// A read of the input failed.
    ReadFault,
    /// The input has more bytes than an input may have.
    TooLarge,
    /// Out of memory.
    NoMemory,
    /// No scene stands for the input; or out of memory.
    NoScene(ParseRefusal),
    /// The input's scene has no plan; or out of memory.
    NoPlan(PlanRefusal),
}

impl Refusal {
    /// The line that gives the refusal, with its line feed.
    pub fn line(self) -> Message
        ensures { result ≡ refusal_line self }
    {
        match self {
            Refusal::ReadFault => Message::new(b"read fault\n"),
            Refusal::TooLarge => Message::new(b"input too large\n"),
            Refusal::NoMemory => Message::new(NO_MEMORY),
            Refusal::NoScene(refusal) => parse_line(refusal),
            Refusal::NoPlan(refusal) => plan_line(refusal),
        }
    }

    /// The status of the refusal.
    pub fn status(self) -> u8
        ensures { result ≡ refusal_status self }
    {
        match self {
            Refusal::ReadFault => Exit::ReadFault as u8,
            Refusal::TooLarge => Exit::TooLarge as u8,
            Refusal::NoMemory => Exit::NoMemory as u8,
            Refusal::NoScene(refusal) => parse_status(refusal),
            Refusal::NoPlan(refusal) => plan_status(refusal),
        }
    }
}

fn parse_line(refusal: ParseRefusal) -> Message
    ensures { result ≡ parse_line refusal }
{
    match refusal {
        ParseRefusal::NotAscii { line } => one_number(PARSE, line, b": NotAscii\n"),
        ParseRefusal::BadToken { line, col } => {
            two_numbers(PARSE, line, b" column ", col, b": BadToken\n")
        }
        ParseRefusal::BadLine { line } => one_number(PARSE, line, b": BadLine\n"),
        ParseRefusal::Unclosed { line } => one_number(PARSE, line, b": Unclosed\n"),
        ParseRefusal::NumberTooLarge { line, col } => {
            two_numbers(PARSE, line, b" column ", col, b": NumberTooLarge\n")
        }
        ParseRefusal::Memory => Message::new(NO_MEMORY),
    }
}

fn parse_status(refusal: ParseRefusal) -> u8
    ensures { result ≡ parse_status refusal }
{
    match refusal {
        ParseRefusal::Memory => Exit::NoMemory as u8,
        _ => Exit::NoScene as u8,
    }
}

fn plan_line(refusal: PlanRefusal) -> Message
    ensures { result ≡ plan_line refusal }
{
    match refusal {
        PlanRefusal::UnknownName { line } => one_number(PLAN, line, b": UnknownName\n"),
        PlanRefusal::TwiceNamed { line, first } => {
            two_numbers(PLAN, line, b": TwiceNamed first ", first, b"\n")
        }
        PlanRefusal::WrongCallback { line } => one_number(PLAN, line, b": WrongCallback\n"),
        PlanRefusal::OverLimit { line, limit } => over_limit(line, limit),
        PlanRefusal::IncompatibleLevel { line } => one_number(PLAN, line, b": IncompatibleLevel\n"),
        PlanRefusal::NoParent { line } => one_number(PLAN, line, b": NoParent\n"),
        PlanRefusal::Memory => Message::new(NO_MEMORY),
    }
}

/// The line of a number past its limit.
#[tactic(auto, using(crate::proofs::Messages::word_small))]
fn over_limit(line: u32, limit: Limit) -> Message
    ensures { result ≡ codes "plan refused at line " ++ decimal line ++ codes ": OverLimit " ++ limit_word limit ++ codes "\n" }
{
    let mut message = one_number(PLAN, line, b": OverLimit ");
    message.push(limit.word().as_bytes());
    message.push(b"\n");
    message
}

fn plan_status(refusal: PlanRefusal) -> u8
    ensures { result ≡ plan_status refusal }
{
    match refusal {
        PlanRefusal::Memory => Exit::NoMemory as u8,
        _ => Exit::NoPlan as u8,
    }
}

impl From<Memory> for Refusal {
    ghost use Rattle.std.specs.Prelude.{◌≡◌};
    ghost use Rattle.wdf_output.specs.declared.refusal.Refusal.TheVariants.{NoMemory};

    ghost from_gives = { λ _ e. e ≡ NoMemory };

    fn from(_memory: Memory) -> Refusal {
        Refusal::NoMemory
    }
}

impl From<InputError> for Refusal {
    ghost use Rattle.wdf_output.specs.Refusals.{refusal_of};
    ghost use Rattle.std.specs.Prelude.{◌≡◌};

    ghost from_gives = { λ error refusal. refusal ≡ refusal_of error };

    fn from(error: InputError) -> Refusal {
        match error {
            InputError::Fault => Refusal::ReadFault,
            InputError::TooLarge => Refusal::TooLarge,
            InputError::Memory => Refusal::NoMemory,
        }
    }
}

impl From<ParseRefusal> for Refusal {
    ghost use Rattle.std.specs.Prelude.{◌≡◌};
    ghost use Rattle.wdf_output.specs.declared.refusal.Refusal.TheVariants.{NoScene};

    ghost from_gives = { λ refusal e. e ≡ NoScene refusal };

    fn from(refusal: ParseRefusal) -> Refusal {
        Refusal::NoScene(refusal)
    }
}

impl From<PlanRefusal> for Refusal {
    ghost use Rattle.std.specs.Prelude.{◌≡◌};
    ghost use Rattle.wdf_output.specs.declared.refusal.Refusal.TheVariants.{NoPlan};

    ghost from_gives = { λ refusal e. e ≡ NoPlan refusal };

    fn from(refusal: PlanRefusal) -> Refusal {
        Refusal::NoPlan(refusal)
    }
}
