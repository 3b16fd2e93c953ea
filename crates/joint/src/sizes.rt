// The numbers of a layer.
ghost use Rattle.std.specs.Prelude.{◌≡◌};

/// The numbers of a memory: ports, depth and nodes.
#[derive(Clone, Copy)]
pub struct Size {
    pub reads: usize,
    pub writes: usize,
    pub depth: usize,
    pub nodes: usize,
}

/// The numbers of a layer's halves and its own. A void layer's own are 0.
#[derive(Clone, Copy)]
pub struct Joint {
    pub first: Size,
    pub second: Size,
    pub own: Size,
    ghost void: { own.depth ≡ 0 → (own.reads ≡ 0) × (own.writes ≡ 0) × (own.nodes ≡ 0) },
}

impl Joint {
    /// The numbers of a void layer.
    pub fn void() -> Joint
        ensures { result.own.depth ≡ 0 }
    {
        let none = Size {
            reads: 0,
            writes: 0,
            depth: 0,
            nodes: 0,
        };
        Joint {
            first: none,
            second: none,
            own: none,
        }
    }
}
