//! The words that a program is called with.
//!
//! # Choices
//!
//! - **What is answered where the system can't give the arguments?** Where it has no memory for them, an `AllocError`. After any other
//!   failure no words.
#![tactic(auto)]

ghost use Rattle.std.specs.Prelude.{◌≡◌, IfOk, IsErr, IsOk, map, drop, string_bytes};
ghost use Rattle.std.specs.Vec.Iter.{into_iter_items};
ghost use Rattle.wdf_arguments.specs.Arguments.{LacksArguments, LacksMemory, words_after_name};

use std::alloc::{AllocError, Global};
use std::env::Args;
use std::io;
use std::io::ErrorKind;

/// The words after the program's name. Where the system can't give them for another reason than memory, there are none.
pub fn words_of(alloc: Global, arguments: io::Result<Args>) -> Result<Vec<String>, AllocError>
    ensures words { IfOk result (λ words. map string_bytes words.items ≡ words_after_name arguments) }
    ensures lacking { LacksMemory arguments → IsErr result }
    ensures only_memory { LacksArguments arguments → IsOk result }
{
    match arguments {
        Ok(arguments) => after_name(alloc, arguments),
        Err(error) => {
            if matches!(error.kind(), ErrorKind::OutOfMemory) {
                Err(AllocError)
            } else {
                Ok(Vec::new(alloc))
            }
        }
    }
}

/// The arguments after the first, which is the program's name. Room for all is asked for once, before any is taken.
fn after_name(alloc: Global, arguments: Args) -> Result<Vec<String>, AllocError>
    ensures { IfOk result (λ words. words.items ≡ drop 1 (into_iter_items arguments)) }
{
    let mut words = Vec::with_capacity(alloc, arguments.len())?;
    words.extend(arguments.skip(1))?;
    Ok(words)
}
