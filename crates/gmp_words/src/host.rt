//! What the host hands the program. Its errors end the program as any other refusal does, so that no way out has the runtime's own words
//! and status 1.

ghost use Rattle.std.specs.Prelude.{◌≡◌, ◌⊎◌, true, IfErr};
ghost use Rattle.gmp_words.specs.Said.{is_of_words};
ghost use Rattle.gmp_words.specs.declared.said.Said.TheVariants.{OutOfMemory};

use crate::ended::Ended;
use std::env;
use std::io::ErrorKind;
use std::rt::Env;

/// The words of the command line, the program's name first.
///
/// A line with a word that isn't UTF-8 ends with status 64.
pub fn arguments<R: Env + AllocGlobal>(rt: &R) -> Result<Vec<String>, Ended>
    ensures kinds { IfErr result (λ e. is_of_words e.said ≡ true) }
    ensures refusal { IfErr result (λ e. (e.status ≡ 64) ⊎ (e.said ≡ OutOfMemory)) }
{
    let alloc = rt.alloc();
    match env::args(rt) {
        Ok(words) => Ok(words.collect(alloc)?),
        Err(error) if error.kind() == ErrorKind::OutOfMemory => Err(Ended::out_of_memory()),
        Err(_) => {
            let text = String::from_str(alloc, "error: a word that is not UTF-8\n")?;
            Err(Ended::usage(text))
        }
    }
}
