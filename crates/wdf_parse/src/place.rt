//! Where the text is between two lines: which blocks are open.
ghost use Rattle.std.specs.Prelude.{◌≡◌, ◌==◌, ◌&&◌, OnOk};
ghost use Rattle.wdf_scene.specs.Blocks as blocks;

use std::alloc::Global;
use std::collections::VecDeque;
use std::marker::Model;
use wdf_base::Memory;
use wdf_scene::{Block, InterruptLevel, SceneLine};

/// How many `if` and `repeat` of a callback may be open at a time.
const NESTING_LIMIT: usize = 16;

/// Where the text is between two lines.
#[derive(Debug, Drop)]
pub struct Place {
    version: u8,
    /// How many of the first three lines were seen.
    headers: u8,
    driver: bool,
    pnp: bool,
    order: bool,
    /// The open blocks, innermost first.
    blocks: VecDeque<Block>,
    /// The numbers of the lines that opened them.
    openers: VecDeque<u32>,
}

impl Model for Place {
    ghost use Rattle.wdf_parse.specs.Standing.{Standing};

    ghost Value = { Standing };

    ghost view = { λ p. record {
      position = record { version = p.version; headers = p.headers; blocks = p.blocks.items; driver = p.driver; pnp = p.pnp; order = p.order };
      openers = p.openers.items;
    } };
}

fn in_class(block: Option<Block>) -> bool
    ensures { result ≡ blocks.in_class block }
{
    matches!(block, Some(Block::Class))
}

fn in_device(block: Option<Block>) -> bool
    ensures { result ≡ blocks.in_device block }
{
    matches!(block, Some(Block::Device))
}

fn in_queue(block: Option<Block>) -> bool
    ensures { result ≡ blocks.in_queue block }
{
    matches!(block, Some(Block::Queue))
}

fn in_app(block: Option<Block>) -> bool
    ensures { result ≡ blocks.in_app block }
{
    matches!(block, Some(Block::App))
}

fn in_pnp(block: Option<Block>) -> bool
    ensures { result ≡ blocks.in_pnp block }
{
    matches!(block, Some(Block::Pnp))
}

fn in_order(block: Option<Block>) -> bool
    ensures { result ≡ blocks.in_order block }
{
    matches!(block, Some(Block::Order))
}

fn in_if(block: Option<Block>) -> bool
    ensures { result ≡ blocks.in_if block }
{
    matches!(block, Some(Block::If))
}

fn in_heir(block: Option<Block>) -> bool
    ensures { result ≡ blocks.in_heir block }
{
    matches!(block, Some(Block::Device | Block::Queue))
}

fn in_scoped(block: Option<Block>) -> bool
    ensures { result ≡ blocks.in_scoped block }
{
    matches!(block, Some(Block::Driver | Block::Device | Block::Queue))
}

fn in_owner(block: Option<Block>) -> bool
    ensures { result ≡ blocks.in_owner block }
{
    matches!(
        block,
        Some(Block::Class | Block::Device | Block::Interrupt | Block::Queue | Block::Target)
    )
}

fn in_branch(block: Option<Block>) -> bool
    ensures { result ≡ blocks.in_branch block }
{
    matches!(block, Some(Block::If | Block::Else | Block::Repeat))
}

fn in_callback(block: Option<Block>) -> bool
    ensures { result ≡ blocks.in_callback block }
{
    matches!(
        block,
        Some(Block::On | Block::If | Block::Else | Block::Repeat)
    )
}

fn opened(form: &SceneLine) -> Option<Block>
    ensures { result ≡ blocks.opened form.now }
{
    match form {
        SceneLine::Driver => Some(Block::Driver),
        SceneLine::Class { .. } | SceneLine::DeferredClass { .. } => Some(Block::Class),
        SceneLine::Device { .. } => Some(Block::Device),
        SceneLine::Interrupt { .. } => Some(Block::Interrupt),
        SceneLine::Queue { .. } => Some(Block::Queue),
        SceneLine::Target { .. } => Some(Block::Target),
        SceneLine::App { .. } => Some(Block::App),
        SceneLine::Pnp => Some(Block::Pnp),
        SceneLine::Order => Some(Block::Order),
        SceneLine::On { .. } => Some(Block::On),
        SceneLine::If { .. } => Some(Block::If),
        SceneLine::Repeat { .. } => Some(Block::Repeat),
        _ => None,
    }
}

impl Place {
    ghost use Rattle.wdf_parse.specs.Standing.{start, shifted, standing_after, first_number};

    /// The place before the first line of a text of this version.
    pub fn new(alloc: Global, version: u8) -> Place
        ensures { result ≡ start version }
    {
        Place {
            version,
            headers: 0,
            driver: false,
            pnp: false,
            order: false,
            blocks: VecDeque::new(alloc),
            openers: VecDeque::new(alloc),
        }
    }

    fn innermost(&self) -> Option<Block>
        ensures { result ≡ blocks.innermost self.now.position.blocks }
    {
        self.blocks.front().copied()
    }

    /// The number of the line that opened the innermost block.
    pub fn opener(&self) -> Option<u32>
        ensures { result ≡ first_number self.now.openers }
    {
        self.openers.front().copied()
    }

    /// Whether the first three lines were seen.
    pub fn has_headers(&self) -> bool
        ensures { result ≡ (self.now.position.headers == 3) }
    {
        self.headers == 3
    }

    /// Whether no line was seen, and no version.
    pub fn is_at_front(&self) -> bool
        ensures { result ≡ ((self.now.position.version == 1) && (self.now.position.headers == 0)) }
    {
        self.version == 1 && self.headers == 0
    }

    fn is_outside(&self) -> bool
        ensures { result ≡ blocks.is_outside self.now.position }
    {
        self.headers == 3 && self.innermost().is_none()
    }

    /// How many `if` and `repeat` are open in the callback.
    fn nesting(&self) -> usize
        ensures { result ≡ blocks.nesting self.now.position.blocks }
    {
        self.blocks
            .iter()
            .take_while(|block| in_branch(Some(**block)))
            .count()
    }

    fn may_nest(&self) -> bool
        ensures { result ≡ blocks.may_nest self.now.position.blocks }
    {
        in_callback(self.innermost()) && self.nesting() < NESTING_LIMIT
    }

    fn has_level(&self, level: InterruptLevel) -> bool
        ensures { result ≡ blocks.has_level self.now.position.version level }
    {
        match level {
            InterruptLevel::Numbered(_) => true,
            InterruptLevel::AtPassive => self.version == 2,
        }
    }

    /// Whether a line may be here.
    pub fn may_stand(&self, form: &SceneLine) -> bool
        ensures { result ≡ blocks.may_stand self.now.position form.now }
    {
        let inner = self.innermost();
        match form {
            SceneLine::Cpus(_) => self.headers == 0,
            SceneLine::Limit(_) => self.headers == 1,
            SceneLine::Objects(_) => self.headers == 2,
            SceneLine::Driver => self.is_outside() && !self.driver,
            SceneLine::Class { .. }
            | SceneLine::DeferredClass { .. }
            | SceneLine::Device { .. }
            | SceneLine::App { .. } => self.is_outside(),
            SceneLine::Pnp => self.is_outside() && !self.pnp,
            SceneLine::Order => self.is_outside() && !self.order,
            SceneLine::Interrupt { level, .. } => in_device(inner) && self.has_level(*level),
            SceneLine::On { .. } => in_owner(inner),
            SceneLine::End => inner.is_some(),
            SceneLine::Scope { scope: None } | SceneLine::Level { level: None } => in_heir(inner),
            SceneLine::Scope { .. } | SceneLine::Level { .. } => in_scoped(inner),
            SceneLine::Serialize | SceneLine::Period { .. } => in_class(inner),
            SceneLine::Queue { .. }
            | SceneLine::Target { .. }
            | SceneLine::Register { .. }
            | SceneLine::When { .. }
            | SceneLine::At { .. } => in_device(inner),
            SceneLine::Default | SceneLine::For { .. } | SceneLine::PowerOff | SceneLine::Zero => {
                in_queue(inner)
            }
            SceneLine::AtRead { .. }
            | SceneLine::AtWrite { .. }
            | SceneLine::AtControl { .. }
            | SceneLine::AtCancel { .. } => in_app(inner),
            SceneLine::AtAsk { .. } => in_pnp(inner),
            SceneLine::Picks => in_order(inner),
            SceneLine::If { .. } | SceneLine::Repeat { .. } => self.may_nest(),
            SceneLine::Else => in_if(inner),
            SceneLine::Let { .. }
            | SceneLine::Call { .. }
            | SceneLine::Get { .. }
            | SceneLine::Put { .. }
            | SceneLine::Spend { .. }
            | SceneLine::Log { .. }
            | SceneLine::Return { .. } => in_callback(inner),
        }
    }

    fn note(&mut self, form: &SceneLine)
        ensures { self.new ≡ record self.old { position = blocks.noted self.old.position form.now } }
    {
        match form {
            SceneLine::Cpus(_) => self.headers = 1,
            SceneLine::Limit(_) => self.headers = 2,
            SceneLine::Objects(_) => self.headers = 3,
            SceneLine::Driver => self.driver = true,
            SceneLine::Pnp => self.pnp = true,
            SceneLine::Order => self.order = true,
            _ => {}
        }
    }

    fn shift(&mut self, number: u32, form: &SceneLine) -> Result<(), Memory>
        ensures { OnOk result (self.new ≡ shifted self.old number form.now) }
    {
        match form {
            SceneLine::End => {
                let _ = self.blocks.pop_front();
                let _ = self.openers.pop_front();
            }
            SceneLine::Else => {
                let _ = self.blocks.pop_front();
                self.blocks.push_front(Block::Else)?;
            }
            _ => {
                if let Some(block) = opened(form) {
                    self.blocks.push_front(block)?;
                    self.openers.push_front(number)?;
                }
            }
        }
        Ok(())
    }

    /// Goes past a line that may be here. After an error nothing is said of the place.
    pub fn pass(&mut self, number: u32, form: &SceneLine) -> Result<(), Memory>
        ensures { OnOk result (self.new ≡ standing_after self.old number form.now) }
    {
        self.shift(number, form)?;
        self.note(form);
        Ok(())
    }
}
