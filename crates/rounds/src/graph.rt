// A search graph as the code keeps it, and what settling leaves of each node.
use worlds::step::Step;

// Where a step leads that is open at a worked node.
#[derive(Clone, Copy)]
pub enum Move {
    // an action leads to this node
    Go(u16),
    // a sensing step leads to these nodes, for yes and for no
    Fork(u16, u16),
}

// A search graph: the steps that its moves are numbered by; where each step leads from each node, none where the step is not
// open or the node is not worked; and at which nodes a procedure may end. Moves and ends are two lists, since the same moves are
// lent with other ends: a floor may end where a ceiling may not. A number that is no place of both is no node.
#[derive(Clone, Copy)]
pub struct Graph<'a> {
    pub steps: &'a [Step],
    pub moves: &'a [[Option<Move>; 32]],
    pub ends: &'a [bool],
}

impl Graph<'_> {
    ghost use Rattle.std.specs.Prelude.{◌≡◌};
    ghost use Rattle.rounds.specs.Graph.{move_at, ends_at};

    pub(crate) fn move_at(&self, node: usize, step: usize) -> Option<Move>
        ensures { result ≡ move_at self.now.moves.now node step }
    {
        self.moves.get(node)?.get(step).copied().flatten()
    }

    pub(crate) fn may_end(&self, node: usize) -> bool
        ensures { result ≡ ends_at self.now.ends.now node }
    {
        self.ends.get(node).copied().unwrap_or(false)
    }
}

// How a node was settled, and how many were settled before it: a procedure takes the step of this number, or ends there.
#[derive(Clone, Copy)]
pub struct Mark {
    pub step: Option<usize>,
    pub rank: usize,
}

// A total that a node could be settled at, and how.
#[derive(Clone, Copy)]
pub struct Tentative<V: Copy> {
    pub node: usize,
    pub step: Option<usize>,
    pub total: V,
}
