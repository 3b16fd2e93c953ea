// A tour of the composer: a design from its plan text to its sealed plan, step by step.
//
// It reads plan.txt in the current folder.
#![tactic(auto)]

use anyhow::anyhow;
use node::{Layer, MAX_NODES, Node, check};
use node_line::render;
use plan_text::{read, reread, rewrite};
use seal::{Draft, Sealed};
use std::fs;
use text::{Fault, MAX_BYTES};

const FILE: &str = "plan.txt";

// A text with a number that begins with 0.
const DAMAGED: &[u8] = b"macro\t1\tH\t1\t1\t64\nmacro\t1\tH\t1\t1\t064\nwidth\n";

// Orders have no sum, so no exclusive-or layer stands over them.
const REFUSED: &[u8] = b"macro\t1\tO\t2\t1\t64\nmacro\t1\tO\t2\t1\t64\nxor\n";

// A fault, by its number and place.
fn show_fault<F: Fault>(rt: &HostRuntime, what: &str, fault: &F) -> anyhow::Result<()> {
    let report = fault.report();
    let number = report.number;
    let place = report.place;
    println!(rt; "{what}: fault {number} at {place}")?;
    Ok(())
}

// A node, by its line.
fn show_node(rt: &HostRuntime, i: usize, node: &Node) -> anyhow::Result<()> {
    let line = render(node);
    let text = std::str::from_utf8(line.as_bytes())?;
    print!(rt; "node {i}: {text}")?;
    Ok(())
}

// The shape of the memory that ends with a node.
fn show_shape(rt: &HostRuntime, plan: &Sealed, i: usize) -> anyhow::Result<()> {
    if let Some(shape) = plan.shape_at(i) {
        let letter = shape.letter;
        let reads = shape.reads;
        let writes = shape.writes;
        let depth = shape.depth;
        println!(rt; "    makes {letter:?}, {reads} reads, {writes} writes, {depth} deep")?;
    }
    Ok(())
}

// Takes a sealed plan over and shows what it holds.
fn show_plan(rt: &HostRuntime, plan: Sealed) -> anyhow::Result<()> {
    let nodes = plan.nodes();
    for (i, node) in nodes.iter().enumerate() {
        show_node(rt, i, node)?;
        show_shape(rt, &plan, i)?;
    }
    let count = nodes.len();
    let reads = plan.reads();
    let writes = plan.writes();
    let depth = plan.depth();
    let macros = plan.macros();
    println!(rt;
        "sealed: {count} nodes, {reads} reads, {writes} writes, {depth} deep, {macros} macros"
    )?;
    Ok(())
}

// What the check says of the nodes.
fn show_check(rt: &HostRuntime, nodes: &[Node]) -> anyhow::Result<()> {
    match check(nodes) {
        Ok(top) => {
            let letter = top.shape.letter;
            println!(rt; "check: passes, letter {letter:?}")?;
            Ok(())
        }
        Err(fault) => show_fault(rt, "check", &fault),
    }
}

// The way from the text to nodes and back to a text: it is the same text.
fn show_rewritten(rt: &HostRuntime, text: &[u8]) -> anyhow::Result<()> {
    let mut nodes = [Node::Layer(Layer::Lvt); MAX_NODES];
    let mut out = vec![in rt.alloc(); 0u8; MAX_BYTES]?;
    match rewrite(text, &mut nodes, &mut out) {
        Ok(size) => {
            let same = if out.as_slice().starts_with(text) {
                "the same"
            } else {
                "another"
            };
            println!(rt; "text written back: {size} bytes, {same} text")?;
            Ok(())
        }
        Err(fault) => show_fault(rt, "text written back", &fault),
    }
}

// The way from the nodes to a text and back to nodes: they are the same nodes.
fn show_reread(rt: &HostRuntime, nodes: &[Node]) -> anyhow::Result<()> {
    let mut back = [Node::Layer(Layer::Lvt); MAX_NODES];
    let mut out = vec![in rt.alloc(); 0u8; MAX_BYTES]?;
    match reread(nodes, &mut out, &mut back) {
        Ok(count) => {
            let same = if back.as_slice().starts_with(nodes) {
                "the same"
            } else {
                "other"
            };
            println!(rt; "nodes read back: {count}, {same} nodes")?;
            Ok(())
        }
        Err(fault) => show_fault(rt, "nodes read back", &fault),
    }
}

// The nodes of a design, step by step to the sealed plan.
fn show_nodes(rt: &HostRuntime, text: &[u8], nodes: &[Node]) -> anyhow::Result<()> {
    let count = nodes.len();
    println!(rt; "read: {count} nodes")?;
    show_check(rt, nodes)?;
    show_rewritten(rt, text)?;
    show_reread(rt, nodes)?;
    let draft = Draft::new(nodes);
    show_plan(rt, draft.seal())
}

// A design from its text to its sealed plan.
fn show_design(rt: &HostRuntime, name: &str, text: &[u8]) -> anyhow::Result<()> {
    let mut nodes = [Node::Layer(Layer::Lvt); MAX_NODES];
    let size = text.len();
    println!(rt; "{name}: {size} bytes")?;
    match read(text, &mut nodes) {
        Ok(count) => show_nodes(rt, text, &nodes[..count]),
        Err(fault) => show_fault(rt, "read", &fault),
    }
}

// The sample design, and two that do not come to a plan.
fn tour(rt: &HostRuntime) -> anyhow::Result<()> {
    let text = fs::read(rt, FILE).map_err(|_| anyhow!("cannot read plan.txt"))?;
    show_design(rt, FILE, text.as_slice())?;
    show_design(rt, "a damaged text", DAMAGED)?;
    show_design(rt, "a plan that is refused", REFUSED)
}

fn main(rt: HostRuntime) -> anyhow::Result<()> {
    tour(&rt)
}
