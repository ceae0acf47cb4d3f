//! The device and the length of each read, by its word.
ghost use Rattle.std.specs.Prelude.{◌≡◌};
ghost use Rattle.wdf_gen.specs.Generated as generated;

use wdf_base::Name;
use wdf_scene::SceneLine;

fn device_named(word: u64) -> Name
    ensures { result ≡ generated.device_named word }
{
    if word % 2 == 0 {
        Name::new(b"E")
    } else {
        Name::new(b"F")
    }
}

fn length_read(k: u64, word: u64) -> u64
    ensures { result ≡ generated.length_read k word }
{
    if k % 29 == 0 { 0 } else { 1 + word / 2 % 4096 }
}

/// The line of read `k`, which has this word.
pub fn read_form(k: u64, word: u64) -> SceneLine
    ensures { result ≡ generated.read_form k word }
{
    SceneLine::AtRead {
        tick: 0,
        device: device_named(word),
        length: length_read(k, word),
    }
}
