ghost use Rattle.std.specs.Prelude.{◌≡◌};
ghost use Rattle.wdf_maps.specs.Least.{lesser_if};

/// The lesser of two numbers, each as far as it is there.
pub fn lesser_if(found: Option<u32>, number: Option<u32>) -> Option<u32>
    ensures { result ≡ lesser_if found number }
{
    match (found, number) {
        (Some(found), Some(number)) => Some(found.min(number)),
        (None, number) => number,
        (found, None) => found,
    }
}
