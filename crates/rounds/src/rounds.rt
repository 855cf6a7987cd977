// One round of settling: the least tentative total of all nodes that are not settled.
ghost use Rattle.std.specs.Prelude.{◌≡◌, length};
ghost use Rattle.worlds.specs.Meaning.{step_of};
ghost use Rattle.theory.specs.Procedures.{larger};
ghost use Rattle.rounds.specs.Graph.{move_at, graph_of};
ghost use Rattle.rounds.specs.Rounds.{total_at, rest_total, better_of, by_step, best_step, tentative, best_node};

use crate::graph::{Graph, Move, Tentative};
use tally::Tally;
use worlds::step::Step;

fn larger_of<T: Tally>(a: T::Total, b: T::Total) -> T::Total
    ensures { result ≡ larger T.Tally.le a b }
{
    if T::at_most(a, b) { b } else { a }
}

// The one with the smaller total; the earlier where they tie. Chains call it in a closure: passed by name it gets no proof.
fn better<T: Tally>(earlier: Tentative<T::Total>, later: Tentative<T::Total>) -> Tentative<T::Total>
    ensures { result ≡ better_of T.Tally.le earlier later }
{
    if T::at_most(earlier.total, later.total) {
        earlier
    } else {
        later
    }
}

// A round: the graph, and the totals of the nodes so far.
#[derive(Drop)]
pub(crate) struct Round<'a, T: Tally> {
    pub graph: Graph<'a>,
    pub totals: &'a [Option<T::Total>],
}

impl<T: Tally> Round<'_, T> {
    fn known(&self, node: usize) -> Option<T::Total>
        ensures { result ≡ total_at self.now.totals.now node }
    {
        self.totals.get(node).copied().flatten()
    }

    // What follows a move, where all nodes that it leads to are settled.
    fn rest_of(&self, to: Move) -> Option<T::Total>
        ensures { result ≡ rest_total T.Tally.le self.now.totals.now (Some to) }
    {
        match to {
            Move::Go(next) => self.known(usize::from(next)),
            Move::Fork(next, other) => {
                let on_yes = self.known(usize::from(next))?;
                let on_no = self.known(usize::from(other))?;
                Some(larger_of::<T>(on_yes, on_no))
            }
        }
    }

    // The tentative total of a node by a step, of this number.
    fn by_step(&self, node: usize, number: usize, step: &Step) -> Option<Tentative<T::Total>>
        ensures { result ≡ by_step T.Tally.le T.Tally.nothing T.Tally.add self.now.totals.now node number (move_at self.now.graph.moves.now node number) (step_of step.now) }
    {
        let rest = self.rest_of(self.graph.move_at(node, number)?)?;
        Some(Tentative {
            node,
            step: Some(number),
            total: T::plus(step, rest),
        })
    }

    // The least by any step; of steps that tie, the first.
    fn best_step(&self, node: usize) -> Option<Tentative<T::Total>>
        ensures { result ≡ best_step T.Tally.le T.Tally.nothing T.Tally.add (graph_of self.now.graph (length self.now.totals.now)) self.now.totals.now node }
    {
        self.graph
            .steps
            .iter()
            .enumerate()
            .filter_map(|(number, step)| self.by_step(node, number, step))
            .reduce(|best, here| better::<T>(best, here))
    }

    // The least tentative total of a node that is not settled. Where it ends, that is nothing, and no step gives less.
    fn tentative_at(&self, node: usize) -> Option<Tentative<T::Total>>
        ensures { result ≡ tentative T.Tally.le T.Tally.nothing T.Tally.add (graph_of self.now.graph (length self.now.totals.now)) self.now.totals.now node }
    {
        if self.known(node).is_some() {
            return None;
        }
        if self.graph.may_end(node) {
            return Some(Tentative {
                node,
                step: None,
                total: T::nothing(),
            });
        }
        self.best_step(node)
    }

    // The least of all nodes; of nodes that tie, the first.
    pub(crate) fn best_node(&self) -> Option<Tentative<T::Total>>
        ensures { result ≡ best_node T.Tally.le T.Tally.nothing T.Tally.add (graph_of self.now.graph (length self.now.totals.now)) self.now.totals.now }
    {
        // By number, since moves and totals are asked by it, and of numbers beyond the lists too.
        (0..self.totals.len())
            .filter_map(|node| self.tentative_at(node))
            .reduce(|best, here| better::<T>(best, here))
    }
}
