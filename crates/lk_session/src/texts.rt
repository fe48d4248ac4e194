//! Texts, and who reads them.

ghost use Rattle.std.specs.Prelude.{◌≡◌, ◌++◌, [], length, map, IfOk, IfErr, OnOk, OnErr};
ghost use Rattle.lk_env.specs.Units.{library_of};
ghost use Rattle.lk_session.specs.Texts.{Says, units_in, bytes_of, IsFaultless, TellsFault};

use crate::error::TextError;
use lk_env::library::Library;
use lk_store::memory::NoMemory;
use std::alloc::Global;
use std::sync::Arc;

/// A text that passes share.
pub type Text = Arc<Vec<u8>>;

/// Reads texts into libraries. It stands for two calls over the crates that read files: one that
/// reads a text alone, and one that adds what a text states to a library, in place.
pub trait Reads {
    /// The units that a text states, or its first fault.
    ghost stated: { Says };

    /// How many units the text states.
    fn count(alloc: Global, text: &[u8]) -> Result<usize, TextError>
        ensures count { IfOk result (λ n. n ≡ length (units_in stated text.now)) }
        ensures faultless { OnOk result (IsFaultless stated text.now) }
        ensures fault { IfErr result (TellsFault (stated text.now)) };

    /// Adds what the text states behind the units of the library, of which nothing states budgets.
    /// Where it gives up, the library has the units that it had.
    fn add_text(alloc: Global, library: &mut Library, text: &[u8]) -> Result<(), TextError>
        requires { library.old.budgets ≡ [] }
        ensures budgets { library.new.budgets ≡ [] }
        ensures ok { OnOk result (library_of library.new
            ≡ library_of library.old ++ units_in stated text.now) }
        ensures err { OnErr result (library_of library.new ≡ library_of library.old) }
        ensures fault { IfErr result (TellsFault (stated text.now)) };
}

/// A copy of the text, which passes can share.
pub(crate) fn share_text(alloc: Global, text: &[u8]) -> Result<Text, NoMemory>
    ensures { IfOk result (λ t. bytes_of t ≡ text.now) }
{
    let mut bytes = Vec::new(alloc);
    bytes.extend_from_slice(text)?;
    let shared = Arc::new(alloc, bytes)?;
    Ok(shared)
}

/// The same texts, shared once more.
pub(crate) fn share_again(alloc: Global, texts: &[Text]) -> Result<Vec<Text>, NoMemory>
    ensures { IfOk result (λ ts. map bytes_of ts.items ≡ map bytes_of texts.now) }
{
    let mut shared = Vec::new(alloc);
    for text in texts {
        shared.push(Arc::try_clone(text)?)?;
    }
    Ok(shared)
}
