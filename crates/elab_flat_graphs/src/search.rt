// A search of a graph, depth first.
ghost use Rattle.std.specs.Prelude.{◌≡◌, ◌≢◌, ◌≤◌, ◌<◌, ◌+◌, ◌++◌, ◌∷◌, [], ℕ, true, false, length, slice_index, IfOk, OnOk, ◌⊎◌, IfNone, IfSome};
ghost use Rattle.elab_flat_graphs.specs.Graphs.{Among, graph_of, successors, IsGraph, IsPathTo, IsCycle};
ghost use Rattle.elab_flat_graphs.specs.Searching.{mark_at, all_changes, from, IsPassed, searched, Searches, KeepsKnown, EndsAt};

use std::alloc::{AllocError, Global};

/// What is known of a vertex.
#[derive(Clone, Copy)]
pub enum Mark {
    New,
    /// It is on the path.
    Open,
    Done,
}

/// A search of a graph: the mark of each vertex, how many of its successors are known to be done, the path, and the
/// vertices that are done.
#[derive(Drop)]
pub struct Search<'a> {
    pub graph: &'a [Vec<usize>],
    pub marks: Vec<Mark>,
    pub passed: Vec<usize>,
    pub path: Vec<usize>,
    pub done: Vec<usize>,
}

/// The mark of a vertex.
#[tactic(auto, using(crate::proofs::Searching::mark_get))]
pub fn mark_of(marks: &[Mark], v: usize) -> Mark
    requires { v < length marks.now }
    ensures { result ≡ mark_at marks.now v }
{
    marks[v]
}

fn is_done(marks: &[Mark], v: usize) -> bool
    requires { v < length marks.now }
    ensures yes { result ≡ true → mark_at marks.now v ≡ Mark.Done }
    ensures no { result ≡ false → mark_at marks.now v ≢ Mark.Done }
{
    match mark_of(marks, v) {
        Mark::New | Mark::Open => false,
        Mark::Done => true,
    }
}

// How many of a vertex's successors are done, from the first one on: at least as many as it was known of.
fn passed(successors: &[usize], marks: &[Mark], known: usize) -> usize
    requires vertices { (w : ℕ) → Among successors.now w → w < length marks.now }
    requires within { known ≤ length successors.now }
    requires known { (k : ℕ) → k < known → mark_at marks.now (slice_index successors.now k) ≡ Mark.Done }
    ensures within { result ≤ length successors.now }
    ensures done { (k : ℕ) → k < result → mark_at marks.now (slice_index successors.now k) ≡ Mark.Done }
    ensures open { result < length successors.now → mark_at marks.now (slice_index successors.now result) ≢ Mark.Done }
{
    let mut count = known;
    while count < successors.len() && is_done(marks, successors[count]) {
        count += 1;
    }
    count
}

// The path from a vertex of it on.
fn cycle_from(alloc: Global, path: &[usize], v: usize) -> Result<Vec<usize>, AllocError>
    ensures { IfOk result (λ r. r.items ≡ from path.now v) }
{
    let mut start = 0;
    while start < path.len() && path[start] != v {
        start += 1;
    }
    Vec::from_slice(alloc, &path[start..])
}

/// The successors of a vertex.
#[tactic(auto, using(crate::proofs::Searching::successors_get))]
pub fn successors_of(graph: &[Vec<usize>], v: usize) -> &[usize]
    requires { v < length graph.now }
    ensures { result.now ≡ successors (graph_of graph.now) v }
{
    &graph[v]
}

// The last vertex of a path.
fn last_of(path: &[usize]) -> Option<usize>
    ensures last { IfSome result (λ v. EndsAt path.now v) }
    ensures none { IfNone result (path.now ≡ []) }
{
    path.last().copied()
}

impl<'a> Search<'a> {
    /// A search in which each vertex is new.
    pub fn start(alloc: Global, graph: &'a [Vec<usize>]) -> Result<Search<'a>, AllocError>
        ensures graph { IfOk result (λ s. s.graph.now ≡ graph.now) }
        ensures search { IfOk result (λ s. Searches s) }
        ensures path { IfOk result (λ s. s.path.items ≡ []) }
    {
        Ok(Search {
            graph,
            marks: vec![in alloc; Mark::New; graph.len()]?,
            passed: vec![in alloc; 0usize; graph.len()]?,
            path: Vec::new(alloc),
            done: Vec::new(alloc),
        })
    }

    /// A new vertex goes onto the path: the first one, or a successor of the last one.
    pub fn open(&mut self, v: usize) -> Result<(), AllocError>
        requires search { Searches self.old }
        requires vertex { v < length (searched self.old) }
        requires new { mark_at self.old.marks.items v ≡ Mark.New }
        requires path { (self.old.path.items ≡ []) ⊎ IsPathTo (searched self.old) self.old.path.items v }
        ensures graph { searched self.new ≡ searched self.old }
        ensures search { OnOk result (Searches self.new) }
        ensures known { OnOk result (KeepsKnown self.old.marks.items self.new.marks.items) }
        ensures here { OnOk result (mark_at self.new.marks.items v ≢ Mark.New) }
        ensures changes { OnOk result (all_changes self.new.marks.items + 1 ≡ all_changes self.old.marks.items) }
    {
        self.path.push(v)?;
        self.marks[v] = Mark::Open;
        Ok(())
    }

    // The last vertex of the path is done, as all its successors are.
    fn close(&mut self, v: usize) -> Result<(), AllocError>
        requires search { Searches self.old }
        requires last { EndsAt self.old.path.items v }
        requires successors { (w : ℕ) → Among (successors (searched self.old) v) w →
            mark_at self.old.marks.items w ≡ Mark.Done }
        ensures graph { searched self.new ≡ searched self.old }
        ensures search { OnOk result (Searches self.new) }
        ensures known { OnOk result (KeepsKnown self.old.marks.items self.new.marks.items) }
        ensures changes { OnOk result (all_changes self.new.marks.items + 1 ≡ all_changes self.old.marks.items) }
    {
        self.done.push(v)?;
        self.path.pop();
        self.marks[v] = Mark::Done;
        Ok(())
    }

    // The last vertex of the path.
    fn last(&self) -> Option<usize>
        requires { Searches self.now }
        ensures last { IfSome result (λ v. EndsAt self.now.path.items v) }
        ensures vertex { IfSome result (λ v. v < length (searched self.now)) }
        ensures none { IfNone result (self.now.path.items ≡ []) }
    {
        last_of(&self.path)
    }

    // Looks on at the successors of a vertex: how many of them are done, from the first one on.
    fn look(&mut self, v: usize) -> usize
        requires graph { IsGraph (searched self.old) }
        requires search { Searches self.old }
        requires vertex { v < length (searched self.old) }
        ensures graph { searched self.new ≡ searched self.old }
        ensures search { Searches self.new }
        ensures marks { self.new.marks ≡ self.old.marks }
        ensures path { self.new.path ≡ self.old.path }
        ensures within { result ≤ length (successors (searched self.new) v) }
        ensures done { IsPassed (searched self.new) self.new.marks.items v result }
        ensures open { result < length (successors (searched self.new) v) →
            mark_at self.new.marks.items (slice_index (successors (searched self.new) v) result) ≢ Mark.Done }
    {
        let count = passed(successors_of(self.graph, v), &self.marks, self.passed[v]);
        self.passed[v] = count;
        count
    }

    // A successor that isn't done: it is opened, or, where it is open, closes a cycle.
    fn enter(&mut self, v: usize, next: usize) -> Result<Option<usize>, AllocError>
        requires graph { IsGraph (searched self.old) }
        requires search { Searches self.old }
        requires last { EndsAt self.old.path.items v }
        requires next { Among (successors (searched self.old) v) next }
        requires open { mark_at self.old.marks.items next ≢ Mark.Done }
        ensures graph { searched self.new ≡ searched self.old }
        ensures search { IfOk result (λ r. IfNone r (Searches self.new)) }
        ensures known { IfOk result (λ r. IfNone r (KeepsKnown self.old.marks.items self.new.marks.items)) }
        ensures changes { IfOk result (λ r. IfNone r
            (all_changes self.new.marks.items + 1 ≡ all_changes self.old.marks.items)) }
        ensures cycle { IfOk result (λ r. IfSome r (λ w. IsCycle (searched self.old) (from self.new.path.items w))) }
    {
        match mark_of(&self.marks, next) {
            Mark::Open => Ok(Some(next)),
            Mark::New | Mark::Done => {
                self.open(next)?;
                Ok(None)
            }
        }
    }

    // One step: the last vertex of the path is done, or one of its successors is opened, or, where it is open, closes a
    // cycle.
    fn step(&mut self, v: usize) -> Result<Option<usize>, AllocError>
        requires graph { IsGraph (searched self.old) }
        requires search { Searches self.old }
        requires last { EndsAt self.old.path.items v }
        requires vertex { v < length (searched self.old) }
        ensures graph { searched self.new ≡ searched self.old }
        ensures search { IfOk result (λ r. IfNone r (Searches self.new)) }
        ensures known { IfOk result (λ r. IfNone r (KeepsKnown self.old.marks.items self.new.marks.items)) }
        ensures changes { IfOk result (λ r. IfNone r
            (all_changes self.new.marks.items + 1 ≡ all_changes self.old.marks.items)) }
        ensures cycle { IfOk result (λ r. IfSome r (λ w. IsCycle (searched self.old) (from self.new.path.items w))) }
    {
        let count = self.look(v);
        let successors = successors_of(self.graph, v);
        if count == successors.len() {
            self.close(v)?;
            return Ok(None);
        }
        let next = successors[count];
        self.enter(v, next)
    }

    /// Goes on until no vertex is open, or to the first cycle.
    pub fn finish(&mut self, alloc: Global) -> Result<Option<Vec<usize>>, AllocError>
        requires graph { IsGraph (searched self.old) }
        requires search { Searches self.old }
        ensures graph { searched self.new ≡ searched self.old }
        ensures search { IfOk result (λ r. IfNone r (Searches self.new)) }
        ensures known { IfOk result (λ r. IfNone r (KeepsKnown self.old.marks.items self.new.marks.items)) }
        ensures path { IfOk result (λ r. IfNone r (self.new.path.items ≡ [])) }
        ensures cycle { IfOk result (λ r. IfSome r (λ c. IsCycle (searched self.old) c.items)) }
    {
        while let Some(v) = self.last() {
            if let Some(w) = self.step(v)? {
                let cycle = cycle_from(alloc, &self.path, w)?;
                return Ok(Some(cycle));
            }
        }
        Ok(None)
    }
}
