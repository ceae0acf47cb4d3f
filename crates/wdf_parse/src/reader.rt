//! A text is read line by line.
ghost use Rattle.std.specs.Prelude.{◌≡◌, ◌+◌, ◌<◌, ◌≤◌, ◌^◌, length, map, IfOk, OnOk, IfErr, Ok};
ghost use Rattle.wdf_scene_lines.specs.Building.{form_line, form_picks};
ghost use Rattle.wdf_scene_lines.specs.Reading.{number_in, read_written};
ghost use Rattle.wdf_parse.specs.Picking.{with_line};
ghost use Rattle.wdf_parse.specs.Texts as texts;

use crate::place::Place;
use crate::refusal::ParseRefusal;
use std::alloc::Global;
use wdf_base::Memory;
use wdf_scene::{Scene, SceneBuilder, SceneLine};
use wdf_scene_lines::{Form, read_line};
use wdf_tokens::{Keyword, LexError, Token, TokenFault, keyword_named, read_tokens};

/// The scene so far, and where the text is.
#[derive(Drop)]
pub struct Reader {
    builder: SceneBuilder,
    place: Place,
}

fn is_version_word(word: Option<Keyword>, number: u64) -> bool
    ensures { result ≡ texts.version_mark word number }
{
    match word {
        Some(Keyword::Version) => number == 2,
        _ => false,
    }
}

fn is_version(tokens: &[Token]) -> bool
    ensures { result ≡ texts.is_version tokens.now }
{
    match tokens {
        [Token::Word(word), Token::Number(number)] => {
            is_version_word(keyword_named(word), *number)
        }
        _ => false,
    }
}

fn refused(line: u32, fault: TokenFault) -> ParseRefusal
    ensures { result ≡ texts.refused line fault }
{
    match fault {
        TokenFault::NotAscii => ParseRefusal::NotAscii { line },
        TokenFault::BadToken(col) => ParseRefusal::BadToken { line, col },
        TokenFault::NumberTooLarge(col) => ParseRefusal::NumberTooLarge { line, col },
    }
}

fn number_in(token: &Token) -> u64
    ensures { result ≡ number_in token.now }
{
    match token {
        Token::Number(number) => *number,
        _ => 0,
    }
}

/// Adds a `picks` line with the numbers that some tokens are.
fn add_picks(builder: &mut SceneBuilder, number: u32, tokens: &[Token]) -> Result<(), Memory>
    requires lines { length builder.old.lines + 1 < 2 ^ 32 }
    requires few { length tokens.now < 2 ^ 32 }
    ensures { OnOk result (builder.new ≡ with_line builder.old number SceneLine.Picks (map number_in tokens.now)) }
{
    builder.line(number, SceneLine::Picks)?;
    for token in tokens {
        builder.pick(number_in(token))?;
    }
    Ok(())
}

fn add_form(
    builder: &mut SceneBuilder,
    number: u32,
    form: &Form,
    tokens: &[Token],
) -> Result<(), Memory>
    requires lines { length builder.old.lines + 1 < 2 ^ 32 }
    requires few { length tokens.now < 2 ^ 32 }
    ensures { OnOk result (builder.new ≡ with_line builder.old number (form_line form.now) (form_picks form.now tokens.now)) }
{
    match form {
        Form::Line(line) => builder.line(number, *line),
        Form::Picked => add_picks(builder, number, tokens),
    }
}

fn form_line(form: &Form) -> SceneLine
    ensures { result ≡ form_line form.now }
{
    match form {
        Form::Line(line) => *line,
        Form::Picked => SceneLine::Picks,
    }
}

impl Reader {
    ghost use Rattle.wdf_parse.specs.Picking.{form_taken, read_taken};
    ghost use Rattle.wdf_parse.specs.Texts as texts;

    /// The reader before the first line of a text of this version.
    pub fn new(alloc: Global, version: u8) -> Reader
        ensures { result ≡ texts.opening version }
    {
        Reader {
            builder: SceneBuilder::new(alloc, version),
            place: Place::new(alloc, version),
        }
    }

    /// Takes a line that is read, if it may be here, and answers whether. After its first word
    /// come these tokens.
    fn take_form(&mut self, number: u32, form: &Form, tokens: &[Token]) -> Result<bool, Memory>
        requires lines { length self.old.builder.lines + 1 < 2 ^ 32 }
        requires few { length tokens.now < 2 ^ 32 }
        ensures taken { IfOk result (λ stood. texts.AreTaken (form_taken self.old number (form_line form.now) (form_picks form.now tokens.now)) stood self.new) }
        ensures exprs { OnOk result (self.new.builder.exprs ≡ self.old.builder.exprs) }
        ensures lines { OnOk result (length self.new.builder.lines ≤ length self.old.builder.lines + 1) }
    {
        let line = form_line(form);
        if !self.place.may_stand(&line) {
            return Ok(false);
        }
        self.place.pass(number, &line)?;
        add_form(&mut self.builder, number, form, tokens)?;
        Ok(true)
    }

    fn take_read(
        &mut self,
        number: u32,
        form: &Option<Form>,
        tokens: &[Token],
    ) -> Result<bool, Memory>
        requires lines { length self.old.builder.lines + 1 < 2 ^ 32 }
        requires few { length tokens.now < 2 ^ 32 }
        ensures taken { IfOk result (λ stood. texts.AreTaken (read_taken self.old number form.now tokens.now) stood self.new) }
        ensures exprs { OnOk result (self.new.builder.exprs ≡ self.old.builder.exprs) }
        ensures lines { OnOk result (length self.new.builder.lines ≤ length self.old.builder.lines + 1) }
    {
        match form {
            Some(form) => self.take_form(number, form, tokens),
            None => Ok(false),
        }
    }

    /// Takes the tokens of a line that isn't `version 2`, if they are a line that may be here, and
    /// answers whether.
    fn take_tokens(&mut self, number: u32, tokens: &[Token]) -> Result<bool, Memory>
        requires some { 0 < length tokens.now }
        requires room { length self.old.builder.exprs + length tokens.now < 2 ^ 32 }
        requires lines { length self.old.builder.lines + 1 < 2 ^ 32 }
        ensures taken { IfOk result (λ stood. texts.AreTaken (texts.line_taken self.old number (read_written tokens.now)) stood self.new) }
        ensures room { OnOk result (length self.new.builder.exprs ≤ length self.old.builder.exprs + length tokens.now) }
        ensures lines { OnOk result (length self.new.builder.lines ≤ length self.old.builder.lines + 1) }
    {
        match read_line(&mut self.builder, tokens) {
            Ok(form) => self.take_read(number, &form, &tokens[1..]),
            Err(Memory) => Err(Memory),
        }
    }

    /// Takes the tokens of a line, if they may be here, and answers whether.
    fn take_any(&mut self, alloc: Global, number: u32, tokens: &[Token]) -> Result<bool, Memory>
        requires some { 0 < length tokens.now }
        requires room { length self.old.builder.exprs + length tokens.now < 2 ^ 32 }
        requires lines { length self.old.builder.lines + 1 < 2 ^ 32 }
        ensures taken { IfOk result (λ stood. texts.AreTaken (texts.tokens_taken self.old number tokens.now) stood self.new) }
        ensures room { OnOk result (length self.new.builder.exprs ≤ length self.old.builder.exprs + length tokens.now) }
        ensures lines { OnOk result (length self.new.builder.lines ≤ length self.old.builder.lines + 1) }
    {
        if is_version(tokens) && self.place.is_at_front() {
            *self = Reader::new(alloc, 2);
            return Ok(true);
        }
        self.take_tokens(number, tokens)
    }

    /// Takes the tokens of a line. After an error nothing is said of the reader.
    fn take_filled(
        &mut self,
        alloc: Global,
        number: u32,
        tokens: &[Token],
    ) -> Result<(), ParseRefusal>
        requires room { length self.old.builder.exprs + length tokens.now < 2 ^ 32 }
        requires lines { length self.old.builder.lines + 1 < 2 ^ 32 }
        ensures taken { OnOk result (texts.after_tokens self.old number (Ok tokens.now) ≡ Ok self.new) }
        ensures refused { IfErr result (texts.IsRefusalOf (texts.after_tokens self.old number (Ok tokens.now))) }
        ensures room { OnOk result (length self.new.builder.exprs ≤ length self.old.builder.exprs + length tokens.now) }
        ensures lines { OnOk result (length self.new.builder.lines ≤ length self.old.builder.lines + 1) }
    {
        if tokens.is_empty() {
            return Ok(());
        }
        match self.take_any(alloc, number, tokens) {
            Ok(true) => Ok(()),
            Ok(false) => Err(ParseRefusal::BadLine { line: number }),
            Err(Memory) => Err(ParseRefusal::Memory),
        }
    }

    /// Takes a line without its LF. `tokens` is room to work in. After an error nothing is said of
    /// the reader.
    #[tactic(auto, unfolding(crate::specs::Texts::after_line))]
    pub fn take_line(
        &mut self,
        alloc: Global,
        tokens: &mut Vec<Token>,
        number: u32,
        line: &[u8],
    ) -> Result<(), ParseRefusal>
        requires room { length self.old.builder.exprs + length line.now < 2 ^ 32 }
        requires lines { length self.old.builder.lines + 1 < 2 ^ 32 }
        ensures taken { OnOk result (texts.after_line self.old number line.now ≡ Ok self.new) }
        ensures refused { IfErr result (texts.IsRefusalOf (texts.after_line self.old number line.now)) }
        ensures room { OnOk result (length self.new.builder.exprs ≤ length self.old.builder.exprs + length line.now) }
        ensures lines { OnOk result (length self.new.builder.lines ≤ length self.old.builder.lines + 1) }
    {
        match read_tokens(tokens, line) {
            Ok(()) => self.take_filled(alloc, number, tokens),
            Err(LexError::Fault(fault)) => Err(refused(number, fault)),
            Err(LexError::Memory) => Err(ParseRefusal::Memory),
        }
    }

    /// The scene, if the text may end here; `past` is the number past the last line.
    pub fn finish(self, past: u32) -> Result<Scene, ParseRefusal>
        ensures { result ≡ texts.at_end past self }
    {
        let Reader { builder, place } = self;
        if !place.has_headers() {
            return Err(ParseRefusal::BadLine { line: past });
        }
        match place.opener() {
            Some(line) => Err(ParseRefusal::Unclosed { line }),
            None => Ok(builder.finish()),
        }
    }
}
