/// A block of the text that is open: its first line was seen, and its `end` wasn't.
#[derive(Clone, Copy, Debug)]
pub enum Block {
    Driver,
    Class,
    Device,
    Interrupt,
    Queue,
    Target,
    App,
    Pnp,
    Order,
    /// `on CALLBACK`.
    On,
    /// `if`, before its `else`.
    If,
    /// `if`, after its `else`.
    Else,
    Repeat,
}
