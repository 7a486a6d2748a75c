// What is shown of a line that is met.
ghost use Rattle.std.specs.Prelude.{◌≡◌, ◌≤◌, IfOk};
ghost use Rattle.meet_lines.specs.Lines.{IsOf, SpeaksOf};
ghost use Rattle.meet_lines.specs.Shown.{ShowsMeeting, last_cycle, resets_of};
ghost use Rattle.set_tree.specs.Formulas.{meaning_of};
ghost use Rattle.word_dag.specs.Nodes.{root_value};
ghost use Rattle.word_dag.specs.Names.{HasOneWordEach, naming_from};

use crate::line::MeetLine;
use crate::segments::largest_window;
use replay::{Reach, Shown, shown_segment};
use set_tree_structure::Sound;
use std::alloc::{AllocError, Global};
use twin_tests::property_of;
use unroll_binding::Bound;
use word_dag::Ob;

// How far the segment of a line reaches.
fn reach_of(set: &Sound, line: MeetLine) -> Reach
    requires { SpeaksOf set.now line }
    ensures resets { result.resets ≡ resets_of set.now line }
    ensures last { result.last ≡ last_cycle set.now line }
    ensures few { result.resets ≤ 64 }
    ensures small { result.last ≤ 64 }
{
    let set = set.set();
    match line {
        MeetLine::Reset => Reach {
            resets: set.cycles,
            last: largest_window(set),
        },
        MeetLine::Operation(p) => Reach {
            resets: 0,
            last: property_of(set, p as usize).window,
        },
    }
}

/// What is shown of a line that values of its obligation's free nodes meet, one each in number order: the segment that
/// they name, every word that the obligation doesn't have being 0. It meets the line. Its reset cycles, where the line
/// has them, stand first.
pub fn meet_trace(
    alloc: Global,
    bound: &Bound,
    line: MeetLine,
    ob: &Ob,
    values: &[u64],
) -> Result<Shown, AllocError>
    requires of_line { IsOf bound.now.design (meaning_of bound.now.set) bound.now.set line ob.now.nodes ob.now.root }
    requires speaks { SpeaksOf bound.now.set line }
    requires words { HasOneWordEach ob.now.nodes }
    requires root { (root_value values.now ob.now.nodes ob.now.root).value ≡ 1 }
    ensures { IfOk result (ShowsMeeting bound.now.design (meaning_of bound.now.set) bound.now.set line
        (naming_from ob.now.nodes values.now)) }
{
    let design = bound.design();
    // the nodes of a design fit
    let _fit = design.dag();
    let reach = reach_of(bound.set(), line);
    shown_segment(alloc, bound, reach, ob, values)
}
