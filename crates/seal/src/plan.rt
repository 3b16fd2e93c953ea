// The two states of a plan.
ghost use Rattle.seal.specs.Sound.{Sound};

use node::{Node, Top};

/// A plan that is not checked, over a lent slice of nodes.
#[derive(Drop)]
pub struct Draft<'a> {
    pub(crate) nodes: &'a [Node],
}

/// A plan that passed the check, or the empty plan, over the slice that its draft was lent.
#[derive(Drop)]
pub struct Sealed<'a> {
    pub(crate) nodes: &'a [Node],
    pub(crate) top: Option<Top>,
    ghost sound: { ∥ Sound nodes.now top ∥₁ },
}
