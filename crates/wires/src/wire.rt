// Which port of a layer is wired to which port of its halves.
ghost use Rattle.std.specs.Prelude.{◌≡◌};
ghost use Rattle.wires.specs.Wires.{wire_from, to_both, to_one, xor_writes};
ghost use Rattle.wires.specs.Ports.{listed, joint_reads, joint_writes};

use node::{Layer, Shape};

/// What a wire is for: reads, writes, or the recovery reads of writes.
#[derive(Clone, Copy)]
pub enum Mark {
    Read,
    Write,
    Recovery,
}

/// A wire from a port of the layer at `node` to the port `inner` of its half that ends with the node `half`.
#[derive(Clone, Copy)]
pub struct Wire {
    pub mark: Mark,
    pub node: u8,
    pub port: u8,
    pub half: u8,
    pub inner: u16,
}

/// The wires of one port: one, or two in this order. It is no list, since no port has none.
#[derive(Clone, Copy)]
pub enum PortWires {
    One(Wire),
    Two(Wire, Wire),
}

/// A memory of a plan: the node that it ends with, and its shape. The default fills the places of a
/// fixed buffer that hold no memory.
#[derive(Clone, Copy, Default)]
pub struct Part {
    pub root: u8,
    pub shape: Shape,
}

/// A layer of a plan: the memory that it makes, and its two halves.
#[derive(Clone, Copy)]
pub struct Joint {
    pub layer: Layer,
    pub own: Part,
    pub a: Part,
    pub b: Part,
}

impl Joint {
    // A wire of the port to a port of the half that ends with a node.
    fn wire(self, mark: Mark, port: u8, half: u8, inner: u16) -> Wire
        ensures { result ≡ wire_from mark self.own.root port half inner }
    {
        Wire {
            mark,
            node: self.own.root,
            port,
            half,
            inner,
        }
    }

    // The port is wired to the same port of both halves.
    fn to_both(self, mark: Mark, port: u8) -> PortWires
        ensures { listed result ≡ to_both mark self.own.root self.a.root self.b.root port }
    {
        let (a, b) = (self.a.root, self.b.root);
        PortWires::Two(
            self.wire(mark, port, a, port as u16),
            self.wire(mark, port, b, port as u16),
        )
    }

    // The ports are first those of `a`, as many as `count`, then those of `b`.
    fn to_one(self, mark: Mark, count: u8, port: u8) -> PortWires
        ensures { listed result ≡ to_one mark self.own.root self.a.root self.b.root count port }
    {
        if port < count {
            PortWires::One(self.wire(mark, port, self.a.root, port as u16))
        } else {
            PortWires::One(self.wire(mark, port, self.b.root, (port - count) as u16))
        }
    }

    // A write of an exclusive-or bank goes to one half, and takes a recovery read of the other: the read
    // ports of a half are first the outer ones, then one for each write port of the other half. Halves
    // that fit have outer ones.
    fn xor_writes(self, port: u8) -> PortWires
        ensures { let a = self.a in let b = self.b in
            listed result ≡ xor_writes self.own.root a.root b.root a.shape b.shape port }
    {
        let a = self.a;
        let b = self.b;
        if port < a.shape.writes {
            let outer = b.shape.reads.saturating_sub(a.shape.writes);
            PortWires::Two(
                self.wire(Mark::Write, port, a.root, port as u16),
                self.wire(Mark::Recovery, port, b.root, outer as u16 + port as u16),
            )
        } else {
            let inner = port - a.shape.writes;
            let outer = a.shape.reads.saturating_sub(b.shape.writes);
            PortWires::Two(
                self.wire(Mark::Write, port, b.root, inner as u16),
                self.wire(Mark::Recovery, port, a.root, outer as u16 + inner as u16),
            )
        }
    }

    /// The wires of a read port.
    pub fn read_wires(self, port: u8) -> PortWires
        ensures { listed result ≡ joint_reads self port }
    {
        match self.layer {
            Layer::Replicate => self.to_one(Mark::Read, self.a.shape.reads, port),
            Layer::Lvt | Layer::Xor | Layer::Depth | Layer::Width => self.to_both(Mark::Read, port),
        }
    }

    /// The wires of a write port, with its recovery read where it has one.
    pub fn write_wires(self, port: u8) -> PortWires
        ensures { listed result ≡ joint_writes self port }
    {
        match self.layer {
            Layer::Replicate | Layer::Depth | Layer::Width => self.to_both(Mark::Write, port),
            Layer::Lvt => self.to_one(Mark::Write, self.a.shape.writes, port),
            Layer::Xor => self.xor_writes(port),
        }
    }
}
