//! The Pi at the head of a term.

ghost use Rattle.std.specs.Prelude.{◌≡◌, ◌<◌, length};
ghost use Rattle.lk_store.specs.Contents.{tree_at};
ghost use Rattle.lk_mentions.specs.Pis.{pi_of, IsHeadPi};

use lk_store::node::Node;
use lk_store::terms::Terms;

/// A Pi.
#[derive(Clone, Copy)]
pub struct Pi {
    pub domain: u64,
    pub body: u64,
}

fn pi_of(node: Node) -> Option<Pi>
    ensures { result ≡ pi_of node }
{
    match node {
        Node::Pi(domain, body) => Some(Pi { domain, body }),
        _ => None,
    }
}

/// The Pi that a term is, if it is one.
pub fn head_pi<T: Terms>(terms: &T, e: u64) -> Option<Pi>
    requires { e < length (T.contents terms.now).trees }
    ensures { IsHeadPi (T.contents terms.now) e result }
{
    pi_of(terms.view(e))
}
