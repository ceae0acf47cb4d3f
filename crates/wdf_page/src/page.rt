ghost use Rattle.std.specs.Prelude.{◌≡◌, ◌++◌, [], true, OnOk, decimal};
ghost use Rattle.std.specs.List.{list_all};
ghost use Rattle.wdf_page.specs.Escaped.{entity_of, escaped, has_only_entities, is_inert};

use std::alloc::Global;
use std::marker::Model;
use wdf_base::Memory;
use wdf_writing::Text;

/// A page that is being written. Contracts see its bytes.
#[derive(Drop)]
pub struct Page {
    text: Text,
}

impl Model for Page {
    ghost use Rattle.std.specs.Prelude.{ℕ, List};

    ghost Value = { List ℕ };

    ghost view = { λ page. page.text };
}

impl Page {
    /// A page without text.
    pub fn new(alloc: Global) -> Page
        ensures { result ≡ [] }
    {
        Page {
            text: Text::new(alloc),
        }
    }

    /// The bytes of the page.
    pub fn bytes(&self) -> &[u8]
        ensures { result.now ≡ self.now }
    {
        self.text.bytes()
    }

    /// Adds markup of the program's own.
    ///
    /// # Errors
    ///
    /// [`Memory`] where memory was refused.
    pub fn markup(&mut self, piece: &'static str) -> Result<(), Memory>
        ensures { OnOk result (self.new ≡ self.old ++ piece.now) }
    {
        self.text.push(piece.as_bytes())
    }

    /// Adds a number in decimal digits.
    ///
    /// # Errors
    ///
    /// [`Memory`] where memory was refused.
    pub fn number(&mut self, number: u64) -> Result<(), Memory>
        ensures { OnOk result (self.new ≡ self.old ++ decimal number) }
    {
        self.text.push_number(number)
    }

    /// Adds a byte of a text, or the entity that stands for it.
    fn add_escaped(&mut self, byte: u8) -> Result<(), Memory>
        ensures { OnOk result (self.new ≡ self.old ++ entity_of byte) }
    {
        match byte {
            b'<' => self.text.push(b"&lt;"),
            b'>' => self.text.push(b"&gt;"),
            b'&' => self.text.push(b"&amp;"),
            b'"' => self.text.push(b"&quot;"),
            b'\'' => self.text.push(b"&#39;"),
            _ => self.text.push(&[byte]),
        }
    }

    /// Adds text from outside, escaped.
    ///
    /// # Errors
    ///
    /// [`Memory`] where memory was refused.
    #[tactic(auto, using(crate::proofs::Escapes::escaped_more, crate::proofs::Escapes::escaped_inert, crate::proofs::Escapes::only_entities))]
    pub fn text(&mut self, text: &[u8]) -> Result<(), Memory>
        ensures escaped { OnOk result (self.new ≡ self.old ++ escaped text.now) }
        // What is added has no mark that ends a text or an attribute, and each `&` of it begins an entity.
        ensures inert { list_all is_inert (escaped text.now) ≡ true }
        ensures entities { has_only_entities (escaped text.now) ≡ true }
    {
        for byte in text {
            match self.add_escaped(*byte) {
                Ok(()) => {}
                Err(memory) => return Err(memory),
            }
        }
        Ok(())
    }
}
