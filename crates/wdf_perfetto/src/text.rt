//! Texts of plain ASCII.
ghost use Rattle.std.specs.Prelude.{◌≡◌, ◌++◌, [], ◌∷◌, map, string_bytes, OnOk};
ghost use Rattle.wdf_perfetto.specs.Titles.{plain};

use wdf_base::Memory;

/// The character of a byte, a question mark where it isn't ASCII.
fn plain(byte: u8) -> u8
    ensures { result ≡ plain byte }
{
    if byte < 128 { byte } else { b'?' }
}

/// Adds a byte to a text.
fn add_byte(text: &mut String, byte: u8) -> Result<(), Memory>
    ensures { OnOk result (string_bytes text.new ≡ string_bytes text.old ++ plain byte ∷ []) }
{
    text.push(plain(byte) as char)?;
    Ok(())
}

/// Adds bytes to a text.
pub(crate) fn add(text: &mut String, bytes: &[u8]) -> Result<(), Memory>
    ensures { OnOk result (string_bytes text.new ≡ string_bytes text.old ++ map plain bytes.now) }
{
    for byte in bytes {
        match add_byte(text, *byte) {
            Ok(()) => {}
            Err(memory) => return Err(memory),
        }
    }
    Ok(())
}
