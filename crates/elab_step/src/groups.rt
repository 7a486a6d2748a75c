// Nets in groups that the same statements assign, so that these are run once for all of a group.
ghost use Rattle.std.specs.Prelude.{◌≡◌, ◌≢◌, ◌<◌, ◌⊎◌, ◌++◌, [], ◌∷◌, ℕ, true, IfOk, OnOk, length, slice_index, slice_set};
ghost use Rattle.vlog_tree_runs.specs.Places.{Among};
ghost use Rattle.elab_flat_graphs.specs.Graphs.{graph_of, successors, IsGraph};
ghost use Rattle.elab_step.specs.Groups.{first_list, Joins, AreGroupsOf};

use std::alloc::{AllocError, Global};

// Groups of nets: those that are done, the one that more nets may join, and for each signal the number of its group.
#[derive(Drop)]
struct Grouping {
    done: Vec<Vec<usize>>,
    last: Vec<usize>,
    numbers: Vec<usize>,
}

// Whether none of some signals has this number.
fn none_has(numbers: &[usize], signals: &[usize], number: usize) -> bool
    requires { (k : ℕ) → k < length signals.now → slice_index signals.now k < length numbers.now }
    ensures { result ≡ true → (k : ℕ) → k < length signals.now →
        slice_index numbers.now (slice_index signals.now k) ≢ number }
{
    for signal in signals {
        if numbers[*signal] == number {
            return false;
        }
    }
    true
}

// The list of a signal.
#[tactic(auto, using(crate::proofs::Grouping::list_get))]
fn list_of(lists: &[Vec<usize>], signal: usize) -> &[usize]
    requires { signal < length lists.now }
    ensures { result.now ≡ successors (graph_of lists.now) signal }
{
    &lists[signal]
}

// Whether the same statements assign a net as the first one of a group, if it has one.
fn shares(places: &[Vec<usize>], group: &[usize], net: usize) -> bool
    requires net { net < length places.now }
    requires group { (i : ℕ) → Among group.now i → i < length places.now }
    ensures { result ≡ true → (group.now ≡ []) ⊎
        (successors (graph_of places.now) net ≡ first_list (graph_of places.now) group.now) }
{
    match group {
        [first, ..] => list_of(places, net) == list_of(places, *first),
        [] => true,
    }
}

impl Grouping {
    // No groups of so many signals.
    fn new(alloc: Global, count: usize) -> Result<Grouping, AllocError>
        ensures done { IfOk result (λ s. s.done.items ≡ []) }
        ensures last { IfOk result (λ s. s.last.items ≡ []) }
        ensures numbers { IfOk result (λ s. length s.numbers.items ≡ count) }
    {
        Ok(Grouping {
            done: Vec::new(alloc),
            last: Vec::new(alloc),
            numbers: vec![in alloc; usize::MAX; count]?,
        })
    }

    // The last group is done, and a new one begins.
    fn close(&mut self, alloc: Global) -> Result<(), AllocError>
        ensures done { OnOk result (self.new.done.items ≡ self.old.done.items ++ self.old.last ∷ []) }
        ensures last { OnOk result (self.new.last.items ≡ []) }
        ensures numbers { OnOk result (self.new.numbers.items ≡ self.old.numbers.items) }
    {
        let mut closed = Vec::new(alloc);
        std::mem::swap(&mut closed, &mut self.last);
        self.done.push(closed)?;
        Ok(())
    }

    // Adds a net to the last group.
    fn add(&mut self, net: usize) -> Result<(), AllocError>
        requires { net < length self.old.numbers.items }
        ensures done { OnOk result (self.new.done.items ≡ self.old.done.items) }
        ensures last { OnOk result (self.new.last.items ≡ self.old.last.items ++ net ∷ []) }
        ensures numbers { OnOk result (self.new.numbers.items ≡ slice_set self.old.numbers.items net
            (length self.old.done.items)) }
    {
        self.numbers[net] = self.done.len();
        self.last.push(net)?;
        Ok(())
    }
}

// Whether a net joins the last group: the same statements assign it, and it depends on none of the group.
fn joins(graph: &[Vec<usize>], places: &[Vec<usize>], groups: &Grouping, net: usize) -> bool
    requires vertices { IsGraph (graph_of graph.now) }
    requires places { length places.now ≡ length graph.now }
    requires numbers { length groups.now.numbers.items ≡ length graph.now }
    requires last { (i : ℕ) → Among groups.now.last.items i → i < length graph.now }
    requires net { net < length graph.now }
    ensures { result ≡ true → Joins (graph_of graph.now) (graph_of places.now) groups.now net }
{
    if !shares(places, &groups.last, net) {
        return false;
    }
    none_has(&groups.numbers, list_of(graph, net), groups.done.len())
}

/// Nets in groups, in their order: the same statements assign all nets of a group, and none of them depends on one of
/// the group. The graph has for each signal the places of those that it depends on.
pub fn groups_of(
    alloc: Global,
    graph: &[Vec<usize>],
    places: &[Vec<usize>],
    order: &[usize],
) -> Result<Vec<Vec<usize>>, AllocError>
    requires vertices { IsGraph (graph_of graph.now) }
    requires places { length places.now ≡ length graph.now }
    requires order { (i : ℕ) → Among order.now i → i < length graph.now }
    ensures { IfOk result (λ r. AreGroupsOf (graph_of graph.now) (graph_of places.now) order.now (graph_of r.items)) }
{
    let mut groups = Grouping::new(alloc, graph.len())?;
    for net in order {
        if !joins(graph, places, &groups, *net) {
            groups.close(alloc)?;
        }
        groups.add(*net)?;
    }
    groups.close(alloc)?;
    Ok(groups.done)
}
