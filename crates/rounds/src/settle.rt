// Settling a graph, round by round.
ghost use Rattle.std.specs.Prelude.{◌≡◌, ℕ, ◌<◌, length, set, Some, None};
ghost use Rattle.rounds.specs.Graph.{graph_of, nodes_in};
ghost use Rattle.rounds.specs.Rounds.{total_at};
ghost use Rattle.rounds.specs.Settled.{Settled, Settles};

use crate::graph::{Graph, Mark, Tentative};
use crate::rounds::Round;
use tally::Tally;

// Writes down at what total a node is settled, how, and as which.
fn write_down<V: Copy>(
    best: Tentative<V>,
    rank: usize,
    totals: &mut [Option<V>],
    marks: &mut [Mark],
)
    requires { (best.node < length totals.old) × (best.node < length marks.old) }
    ensures totals { totals.new ≡ set totals.old best.node (Some best.total) }
    ensures marks { marks.new ≡ set marks.old best.node (record { step = best.step; rank = rank }) }
{
    totals[best.node] = Some(best.total);
    marks[best.node] = Mark {
        step: best.step,
        rank,
    };
}

impl Graph<'_> {
    // Settles one node a round, while some node has a tentative total. What is settled first has the least total of all, since
    // adding a step never gives less than the rest.
    fn settle_nodes<T: Tally>(&self, totals: &mut [Option<T::Total>], marks: &mut [Mark]) -> usize
        requires marked { length marks.old ≡ length totals.old }
        requires clear { (i : ℕ) → i < length totals.old → total_at totals.old i ≡ None }
        ensures { Settled T.Tally.le T.Tally.nothing T.Tally.add (graph_of self.now (length totals.old)) totals.new marks.new result }
    {
        for rank in 0..totals.len() {
            let round = Round::<T> {
                graph: *self,
                totals,
            };
            let Some(best) = round.best_node() else {
                return rank;
            };
            write_down(best, rank, totals, marks);
        }
        totals.len()
    }

    // Gives each node the least total of any procedure from it, none exactly where there is none, and marks how and as which it
    // was settled. Answers how many have a total. What the lists have beyond the nodes stays as it was.
    // Totals and marks are two slices, not one of pairs: they are the caller's working space, who may keep the one and not the other.
    pub fn settle<T: Tally>(&self, totals: &mut [Option<T::Total>], marks: &mut [Mark]) -> usize
        ensures { Settles T.Tally.le T.Tally.nothing T.Tally.add (graph_of self.now (nodes_in self.now.moves.now self.now.ends.now totals.old marks.old)) totals.old marks.old totals.new marks.new result }
    {
        let size = self
            .moves
            .len()
            .min(self.ends.len())
            .min(totals.len().min(marks.len()));
        let nodes = &mut totals[..size];
        nodes.fill(None);
        self.settle_nodes::<T>(nodes, &mut marks[..size])
    }
}
