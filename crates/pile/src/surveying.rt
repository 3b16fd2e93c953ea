// The survey of a memory.
ghost use Rattle.std.specs.Prelude.{◌≡◌, ◌≤◌, length, take};
ghost use Rattle.node.specs.Limits.{max_nodes};
ghost use Rattle.runs.specs.Done.{BothRan};
ghost use Rattle.pile.specs.Surveys.{NodesDrawn, NodesListed, PlanDrawn, PlanListed};

use crate::faults::PlanningFault;
use memory::Memory;
use node::{Layer, MAX_NODES, Node};
use planner::{Planned, plan};
use runs::{Answer, Call, run_both};
use seal::Draft;
use wiring::{NetlistFault, netlist};
use word::Word;

/// What a survey finds.
#[derive(Clone, Copy)]
pub struct Findings {
    /// How many calls of the first list were tried.
    pub tried: usize,
    /// How many calls of the second list were tried.
    pub again: usize,
    /// The listing of the first memory's plan.
    pub planned: Result<Planned, PlanningFault>,
    /// The length of its netlist.
    pub drawn: Result<usize, NetlistFault>,
}

// Copies the plan of a memory to the front of `nodes`, and says how many nodes it has.
fn copy_plan<M: Memory>(memory: &M, nodes: &mut [Node; MAX_NODES]) -> usize
    ensures few { result ≤ max_nodes }
    ensures size { length nodes.new ≡ max_nodes }
    ensures plan { M.Memory.ordered memory.now → take result nodes.new ≡ (M.Memory.meaning memory.now).plan }
{
    let count = memory.nodes().min(MAX_NODES);
    for (i, slot) in nodes[..count].iter_mut().enumerate() {
        if let Some(node) = memory.node(i) {
            *slot = node;
        }
    }
    count
}

// Seals nodes, and plans them against a stock text.
fn plan_nodes(nodes: &[Node], stock: &[u8], out: &mut [u8]) -> Result<Planned, PlanningFault>
    ensures { NodesListed nodes.now stock.now out.old out.new result }
{
    let stock = stock::read(stock).map_err(PlanningFault::Stock)?;
    plan(Draft::new(nodes).seal(), &stock, out).map_err(PlanningFault::Listing)
}

// Seals nodes, and writes their netlist.
fn draw_nodes(nodes: &[Node], out: &mut [u8]) -> Result<usize, NetlistFault>
    ensures { NodesDrawn nodes.now out.old out.new result }
{
    netlist(Draft::new(nodes).seal(), out)
}

/// Runs two lists of calls, each on a memory of its own; then seals the first memory's plan, plans it against a stock
/// text and writes its netlist. The answers go into `answers` and `again`, as `runs::run_both` puts them.
pub fn survey<M: Memory, N: Memory<Word = M::Word>>(
    first: &mut M,
    second: &mut N,
    calls: &[Call<M::Word>],
    others: &[Call<M::Word>],
    answers: &mut [Answer<M::Word>],
    again: &mut [Answer<M::Word>],
    stock: &[u8],
    listing: &mut [u8],
    drawing: &mut [u8],
) -> Findings
    ensures runs { BothRan M.Word.Word.nought M.Memory.ordered M.Memory.meaning
        N.Memory.ordered N.Memory.meaning
        (record {
          before = first.old;
          after = first.new;
          calls = calls.now;
          old = answers.old;
          new = answers.new;
          tried = result.tried;
        })
        (record {
          before = second.old;
          after = second.new;
          calls = others.now;
          old = again.old;
          new = again.new;
          tried = result.again;
        }) }
    ensures listing { PlanListed M.Word.Word.kind (M.Memory.meaning first.new) stock.now listing.old listing.new result.planned }
    ensures netlist { PlanDrawn M.Word.Word.kind (M.Memory.meaning first.new) drawing.old drawing.new result.drawn }
{
    let (tried, tried_again) = run_both(first, second, calls, others, answers, again);
    let mut nodes = [Node::Layer(Layer::Lvt); MAX_NODES];
    let count = copy_plan(first, &mut nodes);
    let planned = plan_nodes(&nodes[..count], stock, listing);
    let drawn = draw_nodes(&nodes[..count], drawing);
    Findings {
        tried,
        again: tried_again,
        planned,
        drawn,
    }
}
