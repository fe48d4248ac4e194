//! Pis over a type.

ghost use Rattle.std.specs.Prelude.{◌<◌, length, map, All};
ghost use Rattle.lk_ask.specs.Looks.{MakesTree};
ghost use Rattle.lk_chain.specs.Pis.{pis_over};

use lk_ask::looks::Looks;
use lk_store::memory::NoMemory;
use lk_store::node::Node;

/// Pis with these domains over a type, the first one outermost.
pub fn pis<L: Looks>(looks: &mut L, domains: &[u64], ty: u64) -> Result<u64, NoMemory>
    requires domains_in { All (λ x. x < length (L.contents looks.old).trees) domains.now }
    requires ty_in { ty < length (L.contents looks.old).trees }
    ensures { MakesTree L.contents L.rest looks.old looks.new result
        (λ t. pis_over (map t domains.now) (t ty)) }
{
    let mut left = domains;
    let mut made = ty;
    'domains: while let Some((domain, others)) = left.split_last() {
        made = looks.make(Node::Pi(*domain, made))?;
        left = others;
    }
    Ok(made)
}
