// The clock and the asynchronous reset of a block with edges (IEEE 1364-2005, section 9.7.4; IEEE 1364.1-2002, section
// 5.2.2).

ghost use Rattle.std.specs.Prelude.{◌≡◌, ◌↔◌, IsTrue, Option};
ghost use Rattle.std.specs.Option.{option_map};
ghost use Rattle.vlog_tree_runs.specs.Places.{Name};
ghost use Rattle.elab_flat_faults.specs.Clocks.{Reset as Asynchronous, IsResetEdge};
ghost use Rattle.elab_flat_clocks.specs.Timings.{reset_meant, reset_in, WaitsForOne, WaitsForTwo, IsTimedBy, IsTimingOf};

use crate::condition::condition_of;
use crate::reset::{Reset, reset_of};
use outside::Text;
use vlog_tree::{Edge, Stmt};

/// What a block with edges waits for.
#[derive(Clone, Copy)]
pub struct Timing<'a> {
    pub clock: &'a Text,
    /// None: no asynchronous reset.
    pub reset: Option<Reset<'a>>,
}

// Whether an edge is that of a reset.
fn is_reset_edge(edge: &Edge, reset: Reset<'_>) -> bool
    ensures { IsTrue result ↔ IsResetEdge edge.now (reset_meant reset.entry) }
{
    if edge.name.bytes() != reset.name.bytes() {
        return false;
    }
    if reset.high {
        edge.rising
    } else {
        !edge.rising
    }
}

// What a block with one edge waits for.
fn one_edge(edge: &Edge) -> Option<Timing<'_>>
    ensures { (x : Name) (r : Option Asynchronous) → WaitsForOne edge.now x r ↔ IsTimedBy result x r }
{
    if edge.rising {
        Some(Timing {
            clock: &edge.name,
            reset: None,
        })
    } else {
        None
    }
}

// What a block with two edges waits for: one is that of the reset that its body tests, the other the clock's.
fn two_edges<'a>(one: &'a Edge, other: &'a Edge, reset: Reset<'a>) -> Option<Timing<'a>>
    ensures { (x : Name) (r : Option Asynchronous) → WaitsForTwo one.now other.now (reset_meant reset.entry) x r ↔
        IsTimedBy result x r }
{
    let first = is_reset_edge(one, reset);
    let second = is_reset_edge(other, reset);
    if first && other.rising {
        return Some(Timing {
            clock: &other.name,
            reset: Some(reset),
        });
    }
    if second && one.rising {
        return Some(Timing {
            clock: &one.name,
            reset: Some(reset),
        });
    }
    None
}

// The reset that the body of a block tests.
fn reset_in(body: &Stmt) -> Option<Reset<'_>>
    ensures { option_map reset_meant result ≡ reset_in body.now }
{
    match condition_of(body) {
        Some(condition) => reset_of(condition),
        None => None,
    }
}

/// The clock and the asynchronous reset that a block with edges waits for; none where its edges and its body have none
/// of the accepted forms.
pub fn timing_of<'a>(edges: &'a [Edge], body: &'a Stmt) -> Option<Timing<'a>>
    ensures { IsTimingOf edges.now body.now result }
{
    if edges.len() == 1 {
        return one_edge(&edges[0]);
    }
    if edges.len() != 2 {
        return None;
    }
    match reset_in(body) {
        Some(reset) => two_edges(&edges[0], &edges[1], reset),
        None => None,
    }
}
