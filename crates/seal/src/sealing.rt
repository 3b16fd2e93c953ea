// Sealing, and what a sealed plan tells.
ghost use Rattle.std.specs.Prelude.{◌≡◌};
ghost use Rattle.node.specs.Plans.{ShapeAt};
ghost use Rattle.seal.specs.Sealing.{Seals, top_letter, top_reads, top_writes, top_depth, top_macros};

use crate::plan::{Draft, Sealed};
use node::{Node, Shape, Top, check};
use word::Letter;

impl<'a> Draft<'a> {
    /// A draft of these nodes.
    pub fn new(nodes: &'a [Node]) -> Draft<'a>
        ensures { result.nodes.now ≡ nodes.now }
    {
        Draft { nodes }
    }

    /// The sealed plan of the draft: its nodes where they pass the check, else the empty plan.
    pub fn seal(self) -> Sealed<'a>
        ensures { Seals self.entry.nodes.now result.nodes.now result.top }
    {
        let nodes = self.nodes;
        let Ok(top) = check(nodes) else {
            return Sealed {
                nodes: &nodes[..0],
                top: None,
            };
        };
        Sealed {
            nodes,
            top: Some(top),
        }
    }
}

impl<'a> Sealed<'a> {
    /// The nodes of the plan; the empty plan has none.
    pub fn nodes(&self) -> &'a [Node]
        ensures { result.now ≡ self.now.nodes.now }
    {
        self.nodes
    }

    /// The shape of the whole and its number of macros; the empty plan has none.
    pub fn top(&self) -> Option<Top>
        ensures { result ≡ self.now.top }
    {
        self.top
    }

    /// The letter of the whole; the empty plan has none.
    pub fn letter(&self) -> Option<Letter>
        ensures { result ≡ top_letter self.now.top }
    {
        self.top.map(|top| top.shape.letter)
    }

    /// The number of read ports, or 0.
    pub fn reads(&self) -> u8
        ensures { result ≡ top_reads self.now.top }
    {
        self.top.map_or(0, |top| top.shape.reads)
    }

    /// The number of write ports, or 0.
    pub fn writes(&self) -> u8
        ensures { result ≡ top_writes self.now.top }
    {
        self.top.map_or(0, |top| top.shape.writes)
    }

    /// The depth, or 0.
    pub fn depth(&self) -> u32
        ensures { result ≡ top_depth self.now.top }
    {
        self.top.map_or(0, |top| top.shape.depth)
    }

    /// The number of macros, or 0.
    pub fn macros(&self) -> usize
        ensures { result ≡ top_macros self.now.top }
    {
        self.top.map_or(0, |top| top.macros)
    }

    /// The shape of the memory that ends with the node `last`, counted from 0, or none.
    pub fn shape_at(&self, last: usize) -> Option<Shape>
        ensures { ShapeAt self.now.nodes.now last result }
    {
        node::shape_at(self.nodes, last)
    }
}
