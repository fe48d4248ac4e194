//! Constants.

ghost use Rattle.std.specs.Prelude.{◌<◌, IfOk, length};
ghost use Rattle.lk_tree.specs.Tree.{const};
ghost use Rattle.lk_questions.specs.Infer.{infer_steps};
ghost use Rattle.lk_store.specs.Contents.{name_at, list_at};
ghost use Rattle.lk_type.specs.Types.{Infers};

use crate::infer::TypeNext;
use lk_ask::looks::Looks;
use lk_ask::next::Next;
use lk_ask::query::Answer;
use lk_store::memory::NoMemory;
use lk_tree::rule::Rule;

/// The type of a constant: what its line states, at its levels.
pub(crate) fn constant_type<L: Looks>(
    looks: &mut L,
    name: u64,
    levels: u64,
) -> Result<TypeNext, NoMemory>
    requires name_in { name < length (L.contents looks.old).names }
    requires levels_in { levels < length (L.contents looks.old).lists }
    ensures { Infers L.contents L.rest L.sight looks.old looks.new result
        (λ t. infer_steps (const (name_at (L.contents looks.old) name)
        (list_at (L.contents looks.old) levels))) }
{
    let entry = match looks.look(name, Rule::UnknownConstant) {
        Ok(entry) => entry,
        Err(rule) => return Ok(Next::No(rule)),
    };
    match looks.at_levels(entry, levels, entry.stated)? {
        Some(e) => Ok(Next::Done(Answer::Term(e))),
        None => Ok(Next::No(Rule::LevelCount)),
    }
}
