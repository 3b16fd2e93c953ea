// What a plan needs of each kind, compared with what is in stock.
ghost use Rattle.std.specs.Prelude.{◌≡◌};
ghost use Rattle.stock.specs.Needs.{Shortage, needed, of_kind};

use crate::stock::Stock;
use node::{MAX_KIND, Node};

// Whether a node is a macro of a kind.
fn is_of_kind(node: &Node, kind: u8) -> bool
    ensures { result ≡ of_kind kind node.now }
{
    matches!(node, Node::Macro(m) if m.kind == kind)
}

/// The number of macros of a kind among the nodes.
pub fn needed(nodes: &[Node], kind: u8) -> usize
    ensures { result ≡ needed nodes.now kind }
{
    nodes.iter().filter(|node| is_of_kind(node, kind)).count()
}

/// The lowest kind of which the stock has less than the nodes need, and how many are missing; none
/// where there is enough of every kind.
// A pair and no struct, by a rule of the project: the lowest kind that is short, with the missing number.
pub fn shortage(nodes: &[Node], stock: &Stock) -> Option<(u8, usize)>
    ensures { Shortage nodes.now stock.now result }
{
    for kind in 1..=MAX_KIND {
        let wanted = needed(nodes, kind);
        let there = usize::from(stock.count(kind));
        if there < wanted {
            return Some((kind, wanted - there));
        }
    }
    None
}
