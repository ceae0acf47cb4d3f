//! Reading a case: a scenario that has a plan, and what its comments expect.
ghost use Rattle.std.specs.Prelude.{◌≡◌, ◌≤◌, None, Ok, IfOk, IfErr, length};
ghost use Rattle.wdf_parse.specs.StandsFor.{StandsFor};
ghost use Rattle.wdf_parse.specs.declared.parsing.TheConstants.{TEXT_LIMIT};
ghost use Rattle.wdf_refusals.specs.First.{first_refusal};
ghost use Rattle.wdf_top.specs.Causes.{IsCause, all_of};
ghost use Rattle.wdf_top.specs.Top.{IsRead, sourcing};
ghost use Rattle.wdf_expect.specs.Reading.{IsErrorOf, expectations_of};
ghost use Rattle.wdf_hunt.specs.Cases.{IsCaseRefusal, IsReadCase, case_refusal_line};
ghost use Rattle.wdf_hunt.specs.Sums.{IsReadCauseOf};

use std::alloc::Global;
use wdf_expect::{ExpectError, expectations_of};
use wdf_input::read_whole;
use wdf_io::Source;
use wdf_lines::{Message, one_number};
use wdf_output::Refusal;
use wdf_parse::parse;
use wdf_plan::resolve;
use wdf_scene::Scene;
use wdf_tries::Case;

/// Why an input is no case.
#[derive(Clone, Copy)]
pub enum CaseRefusal {
    /// It has no plan.
    Scenario { refusal: Refusal },
    /// The comment `#!` in this line can't be read.
    Unread { line: u32 },
}

impl CaseRefusal {
    /// The line that gives the refusal, with its line feed.
    pub fn line(self) -> Message
        ensures { result ≡ case_refusal_line self }
    {
        match self {
            CaseRefusal::Scenario { refusal } => refusal.line(),
            CaseRefusal::Unread { line } => {
                one_number(b"expect refused at line ", line, b": BadLine\n")
            }
        }
    }
}

/// Reads the whole input.
///
/// # Errors
///
/// [`Refusal`]: a read failed, the input is longer than it may be, or memory was refused.
pub(crate) fn read_text<S: Source>(alloc: Global, source: &mut S) -> Result<Vec<u8>, Refusal>
    ensures text { IfOk result (λ text. IsRead (sourcing (S.left source.old) (S.left source.new) (S.faults source.old) (S.faults source.new)) text.items) }
    ensures cause { IfErr result (IsReadCauseOf (sourcing (S.left source.old) (S.left source.new) (S.faults source.old) (S.faults source.new))) }
{
    let text = read_whole(alloc, source)?;
    Ok(text)
}

/// Reads the whole input, and its scene, which has a plan.
fn read_scene<S: Source>(alloc: Global, source: &mut S) -> Result<(Scene, Vec<u8>), Refusal>
    ensures scene { IfOk result (λ (scene, text). IsRead (sourcing (S.left source.old) (S.left source.new) (S.faults source.old) (S.faults source.new)) text.items × StandsFor text.items scene × (first_refusal scene ≡ None)) }
    ensures cause { IfErr result (λ refusal. IsCause all_of (sourcing (S.left source.old) (S.left source.new) (S.faults source.old) (S.faults source.new)) refusal) }
{
    let text = read_whole(alloc, source)?;
    let scene = parse(alloc, &text)?;
    let _plan = resolve(alloc, &scene)?;
    Ok((scene, text))
}

/// A scene with the expectations of its text.
pub(crate) fn case_of(alloc: Global, scene: Scene, text: &[u8]) -> Result<Case, ExpectError>
    requires { length text.now ≤ TEXT_LIMIT }
    ensures scene { IfOk result (λ case. case.scene ≡ scene) }
    ensures expectations { IfOk result (λ case. expectations_of text.now ≡ Ok case.expectations) }
    ensures unmoved { IfOk result (λ case. case.jitter ≡ 0) }
    ensures refused { IfErr result (IsErrorOf (expectations_of text.now)) }
{
    let expectations = expectations_of(alloc, text)?;
    Ok(Case {
        scene,
        expectations,
        jitter: 0,
    })
}

/// Reads the whole input, and its case.
///
/// # Errors
///
/// [`CaseRefusal`]: why it has no plan, or which comment can't be read.
pub(crate) fn read_case<S: Source>(alloc: Global, source: &mut S) -> Result<Case, CaseRefusal>
    ensures case { IfOk result (IsReadCase (sourcing (S.left source.old) (S.left source.new) (S.faults source.old) (S.faults source.new))) }
    ensures refused { IfErr result (IsCaseRefusal (sourcing (S.left source.old) (S.left source.new) (S.faults source.old) (S.faults source.new))) }
{
    match read_scene(alloc, source) {
        Ok((scene, text)) => match case_of(alloc, scene, &text) {
            Ok(case) => Ok(case),
            Err(ExpectError::Unread { line }) => Err(CaseRefusal::Unread { line }),
            Err(ExpectError::Memory) => Err(CaseRefusal::Scenario {
                refusal: Refusal::NoMemory,
            }),
        },
        Err(refusal) => Err(CaseRefusal::Scenario { refusal }),
    }
}
