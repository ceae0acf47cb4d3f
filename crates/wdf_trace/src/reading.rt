ghost use Rattle.std.specs.Prelude.{◌≡◌, ◌<◌, ◌^◌, ◌+◌, ◌==◌, ℕ, IfSome, position, slice_get};
ghost use Rattle.std.specs.Option.{option_copied};
ghost use Rattle.wdf_trace.specs.Reading.{part, parts, word, words, is_name_with, is_class_with, is_register_with, is_agent_with, number_of, short_of, cpu_of, name_of, has_dot, object_of, class_of, register_of, poster_of, agent_of};

use std::marker::Model;
use wdf_base::{AgentInfo, ClassInfo, Cpu, Handle, Name, ObjectId, Plan, RegisterInfo};
use wdf_lines::name_bytes;
use wdf_text::small_number;

/// The part of a text at this place between separators, if there are so many.
fn part_if_any(text: &[u8], separator: u8, place: usize) -> Option<&[u8]>
    ensures { option_copied result ≡ slice_get (parts separator text.now) place }
{
    text.split(|byte| *byte == separator).nth(place)
}

/// The part of a text at this place between separators, nothing where there are fewer.
fn part(text: &[u8], separator: u8, place: usize) -> &[u8]
    ensures { result.now ≡ part separator place text.now }
{
    match part_if_any(text, separator, place) {
        Some(part) => part,
        None => &[],
    }
}

/// The word of a line at this place.
pub fn word(text: &[u8], place: usize) -> &[u8]
    ensures { result.now ≡ word place (words text.now) }
{
    part(text, b' ', place)
}

/// The place of a text's first blank, if it has one.
fn blank_in(text: &[u8]) -> Option<usize>
    ensures { result ≡ position (λ b. b == 32) text.now }
{
    text.iter().position(|byte| *byte == b' ')
}

/// What a text has before its first blank, and what it has after that; without a blank it is all before.
fn cut(text: &[u8]) -> (&[u8], &[u8])
    ensures first { result.0.now ≡ word 0 (words text.now) }
    ensures after { (k : ℕ) → word k (words result.1.now) ≡ word (k + 1) (words text.now) }
{
    match blank_in(text) {
        Some(end) => (&text[..end], &text[end + 1..]),
        None => (text, &[]),
    }
}

/// The words of a line, of which the first are cut once: no event asks for another.
#[derive(Drop)]
pub struct Words<'a> {
    text: &'a [u8],
    first: [&'a [u8]; 9],
}

impl<'a> Model for Words<'a> {
    ghost use Rattle.std.specs.Prelude.{◌≡◌, ◌∷◌, [], ℕ, List, map};
    ghost use Rattle.wdf_trace.specs.Reading.{word, words};

    ghost Value = { List (List ℕ) };

    ghost view = { λ w. words w.text.now };

    ghost invariant = { λ w. let ws = words w.text.now in map (λ x. x.now) w.first ≡ word 0 ws ∷ word 1 ws ∷ word 2 ws ∷ word 3 ws ∷ word 4 ws ∷ word 5 ws ∷ word 6 ws ∷ word 7 ws ∷ word 8 ws ∷ [] };
}

impl<'a> Words<'a> {
    /// The words of this text.
    pub fn of(text: &'a [u8]) -> Words<'a>
        ensures { result ≡ words text.now }
    {
        let (first, rest) = cut(text);
        let (second, rest) = cut(rest);
        let (third, rest) = cut(rest);
        let (fourth, rest) = cut(rest);
        let (fifth, rest) = cut(rest);
        let (sixth, rest) = cut(rest);
        let (seventh, rest) = cut(rest);
        let (eighth, rest) = cut(rest);
        let (ninth, _rest) = cut(rest);
        Words {
            text,
            first: [
                first, second, third, fourth, fifth, sixth, seventh, eighth, ninth,
            ],
        }
    }

    /// The word at this place, nothing where there are fewer.
    pub fn at(&self, place: usize) -> &'a [u8]
        ensures { result.now ≡ word place self.now }
    {
        match self.first.get(place) {
            Some(word) => word,
            None => word(self.text, place),
        }
    }
}

/// The number that a word writes in decimal digits, 0 where it doesn't fit 64 bits.
pub fn number_of(digits: &[u8]) -> u64
    ensures { result ≡ number_of digits.now }
{
    small_number(digits).unwrap_or(0)
}

/// The number that a word writes, 0 where it doesn't fit 32 bits.
pub fn short_of(digits: &[u8]) -> u32
    ensures { result ≡ short_of digits.now }
{
    u32::try_from(number_of(digits)).unwrap_or(0)
}

/// The processor that a word names.
pub fn cpu_of(word: &[u8]) -> Cpu
    ensures { result ≡ cpu_of word.now }
{
    let digits = word.get(3..).unwrap_or(&[]);
    Cpu(u8::try_from(number_of(digits)).unwrap_or(0))
}

/// Whether a name has these bytes.
fn is_name_with(word: &[u8], name: &Name) -> bool
    ensures { result ≡ is_name_with word.now name.now }
{
    name.bytes() == word
}

/// The place of the name with these bytes.
fn name_place(plan: &Plan, word: &[u8]) -> Option<usize>
    ensures value { result ≡ position (is_name_with word.now) plan.now.names }
    ensures small { IfSome result (λ k. k < 2 ^ 32) }
{
    plan.names
        .as_slice()
        .iter()
        .position(|name| is_name_with(word, name))
}

/// The number of a name, 0 where there is no such name.
fn name_of(plan: &Plan, word: &[u8]) -> u32
    ensures { result ≡ name_of plan.now word.now }
{
    match name_place(plan, word) {
        Some(place) => place as u32,
        None => 0,
    }
}

/// Whether a word has a dot, as those of objects have.
pub fn has_dot(word: &[u8]) -> bool
    ensures { result ≡ has_dot word.now }
{
    word.iter().any(|byte| *byte == b'.')
}

/// The object that a word names.
pub fn object_of(plan: &Plan, word: &[u8]) -> Handle
    ensures { result ≡ object_of plan.now word.now }
{
    Handle {
        id: ObjectId(short_of(part(word, b'.', 1))),
        name: name_of(plan, part(word, b'.', 0)),
    }
}

/// Whether a class has this name.
fn is_class_with(plan: &Plan, word: &[u8], class: &ClassInfo) -> bool
    ensures { result ≡ is_class_with plan.now word.now class.now }
{
    name_bytes(plan, class.name()) == word
}

/// The place of the class with this name.
fn class_place(plan: &Plan, word: &[u8]) -> Option<usize>
    ensures value { result ≡ class_of plan.now word.now }
    ensures small { IfSome result (λ k. k < 2 ^ 16) }
{
    plan.classes
        .as_slice()
        .iter()
        .position(|class| is_class_with(plan, word, class))
}

/// The class that a word names.
pub fn class_of(plan: &Plan, word: &[u8]) -> Option<u16>
    ensures { result ≡ class_of plan.now word.now }
{
    match class_place(plan, word) {
        Some(place) => Some(place as u16),
        None => None,
    }
}

/// Whether a register has this name.
fn is_register_with(plan: &Plan, word: &[u8], register: &RegisterInfo) -> bool
    ensures { result ≡ is_register_with plan.now word.now register.now }
{
    name_bytes(plan, register.name) == word
}

/// The place of the register with this name.
fn register_place(plan: &Plan, word: &[u8]) -> Option<usize>
    ensures value { result ≡ position (is_register_with plan.now word.now) plan.now.registers }
    ensures small { IfSome result (λ k. k < 2 ^ 32) }
{
    plan.registers
        .as_slice()
        .iter()
        .position(|register| is_register_with(plan, word, register))
}

/// The register that a word names, 0 where there is no such register.
pub fn register_of(plan: &Plan, word: &[u8]) -> u32
    ensures { result ≡ register_of plan.now word.now }
{
    match register_place(plan, word) {
        Some(place) => place as u32,
        None => 0,
    }
}

/// Whether an agent has this name.
fn is_agent_with(plan: &Plan, word: &[u8], agent: &AgentInfo) -> bool
    ensures { result ≡ is_agent_with plan.now word.now agent.now }
{
    name_bytes(plan, agent.name) == word
}

/// The place of the agent with this name.
fn agent_place(plan: &Plan, word: &[u8]) -> Option<usize>
    ensures value { result ≡ position (is_agent_with plan.now word.now) plan.now.agents }
    ensures small { IfSome result (λ k. k + 1 < 2 ^ 16) }
{
    plan.agents
        .as_slice()
        .iter()
        .position(|agent| is_agent_with(plan, word, agent))
}

/// The place among the agents from 1 of the one whose name a word begins with, 0 where there is none.
fn poster_of(plan: &Plan, word: &[u8]) -> u16
    ensures value { result ≡ poster_of plan.now word.now }
    ensures small { result + 1 < 2 ^ 16 }
{
    match agent_place(plan, part(word, b'.', 0)) {
        Some(place) => place as u16,
        None => 0,
    }
}

/// The agent that a word names.
pub fn agent_of(plan: &Plan, word: &[u8]) -> u16
    ensures { result ≡ agent_of plan.now word.now }
{
    if word == b"pnp".as_slice() {
        0
    } else {
        poster_of(plan, word) + 1
    }
}
