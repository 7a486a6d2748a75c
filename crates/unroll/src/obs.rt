// The obligations of a design's lines.
ghost use Rattle.std.specs.Prelude.{◌≡◌, ◌<◌, length, IfOk, OnOk};
ghost use Rattle.std.specs.List.{All, AllZip};
ghost use Rattle.unroll_binding.specs.Binding.{Fits};
ghost use Rattle.unroll_laws.specs.Tests.{line_test};
ghost use Rattle.set_tree.specs.Formulas.{meaning_of};
ghost use Rattle.set_tree.specs.Report.{design_lines};
ghost use Rattle.twin_tests.specs.Building.{HasWidth, Tests};
ghost use Rattle.twin_tests.specs.Framing.{SpeaksOf};
ghost use Rattle.twin_tests.specs.Reading.{HasStructure};
ghost use Rattle.unroll.specs.Named.{IsNamedOf, design_line, line_of};
ghost use Rattle.unroll.specs.Unrolled.{AreSegments};
ghost use Rattle.word_dag.specs.Adding.{Keeps};
ghost use Rattle.word_dag.specs.Names.{HasOneWidthEach};
ghost use Rattle.elab_step_design.specs.Designs.{IsDesign, Parts};

use crate::design_line::DesignLine;
use crate::line::{base_node, operation_node, reset_node, step_node};
use crate::lines::lines_of;
use crate::segment::{Segments, segments_of};
use set_tree::Set;
use std::alloc::{AllocError, Global};
use twin_tests::{property_of, rows_before};
use twin_tests_laws::line_name;
use unroll_binding::Bound;
use word_dag::{Dag, Named, extract};

// A line of the design as a node: 1 exactly at values whose segment violates it.
fn line_node(
    alloc: Global,
    dag: &mut Dag,
    set: &Set,
    line: DesignLine,
    segments: &Segments,
) -> Result<u64, AllocError>
    requires structure { HasStructure set.now }
    requires line { SpeaksOf set.now (line_of line) }
    requires segments { (d : Parts) × AreSegments d set.now dag.old segments.now }
    ensures keeps { IfOk result (λ _. Keeps dag.old dag.new) }
    ensures width { IfOk result (λ i. HasWidth dag.new i 1) }
    ensures node { IfOk result (λ i. (d : Parts) → AreSegments d set.now dag.old segments.now →
        Tests dag.new i (line_test d (meaning_of set.now) set.now (line_of line))) }
{
    match line {
        DesignLine::Base(i) => {
            let rows = rows_before(segments.after_reset.as_slice(), 1);
            base_node(alloc, dag, set, i, rows)
        }
        DesignLine::Step(i) => {
            let rows = rows_before(segments.plain.as_slice(), 2);
            step_node(alloc, dag, set, i, rows)
        }
        DesignLine::Reset => {
            let end = property_of(set, 0).window as usize;
            let rows = rows_before(segments.after_reset.as_slice(), end + 1);
            reset_node(alloc, dag, set, rows)
        }
        DesignLine::Operation(p) => {
            let end = property_of(set, p as usize).window as usize;
            let rows = rows_before(segments.plain.as_slice(), end + 1);
            operation_node(alloc, dag, set, p as usize, rows)
        }
    }
}

// Puts the nodes of lines into the dag, one line after another.
fn add_lines(
    alloc: Global,
    dag: &mut Dag,
    set: &Set,
    lines: &[DesignLine],
    segments: &Segments,
) -> Result<(), AllocError>
    requires structure { HasStructure set.now }
    requires lines { All (λ line. SpeaksOf set.now (line_of line)) lines.now }
    requires segments { (d : Parts) × AreSegments d set.now dag.old segments.now }
    ensures { OnOk result (Keeps dag.old dag.new) }
{
    for line in lines {
        line_node(alloc, dag, set, *line, segments)?;
    }
    Ok(())
}

// The obligation of a line, with the line's name.
fn named_ob(
    alloc: Global,
    dag: &mut Dag,
    set: &Set,
    line: DesignLine,
    segments: &Segments,
) -> Result<Named, AllocError>
    requires structure { HasStructure set.now }
    requires line { SpeaksOf set.now (line_of line) }
    requires segments { (d : Parts) × AreSegments d set.now dag.old segments.now }
    requires words { HasOneWidthEach dag.old }
    ensures keeps { IfOk result (λ _. Keeps dag.old dag.new) }
    ensures named { IfOk result (λ named. (d : Parts) → IsDesign d → Fits d set.now →
        AreSegments d set.now dag.old segments.now → IsNamedOf d set.now (line_of line) named) }
{
    let root = line_node(alloc, dag, set, line, segments)?;
    let ob = extract(alloc, dag, root)?;
    let name = line_name(alloc, set, line.line())?;
    Ok(Named { name, ob })
}

/// The obligations of the lines of a design, in the order of a report: for each line its name, and nodes whose root is
/// 1 exactly at values whose segment violates the line, no two free words of which have one name and cycle. The free
/// words are the registers' in a segment's first cycle and the inputs' in each of its cycles, the reset cycles among
/// them; the reset is a constant.
pub fn design_obs(alloc: Global, bound: &Bound) -> Result<Vec<Named>, AllocError>
    ensures { IfOk result (λ obs. AllZip (IsNamedOf bound.now.design bound.now.set)
        (design_lines bound.now.set) obs.items) }
{
    // the nodes of a design fit
    let _fit = bound.design().dag();
    let set = bound.set().set();
    let lines = lines_of(alloc, set)?;
    let mut dag = Dag::new(alloc);
    let segments = segments_of(alloc, &mut dag, bound)?;
    let mut obs = Vec::with_capacity(alloc, lines.len())?;
    for line in &lines {
        let named = named_ob(alloc, &mut dag, set, *line, &segments)?;
        obs.push(named)?;
    }
    Ok(obs)
}

/// The obligation of one line of a design, that of this number in the order of a report: it is the one that
/// `design_obs` makes of the line, node by node. So the nodes of the lines before it are put into the dag too, but no
/// other line's obligation is taken out of it.
pub fn design_ob(alloc: Global, bound: &Bound, number: usize) -> Result<Named, AllocError>
    requires { number < length (design_lines bound.now.set) }
    ensures { IfOk result (IsNamedOf bound.now.design bound.now.set (design_line bound.now.set number)) }
{
    // the nodes of a design fit
    let _fit = bound.design().dag();
    let set = bound.set().set();
    let lines = lines_of(alloc, set)?;
    let mut dag = Dag::new(alloc);
    let segments = segments_of(alloc, &mut dag, bound)?;
    add_lines(alloc, &mut dag, set, &lines[..number], &segments)?;
    named_ob(alloc, &mut dag, set, lines[number], &segments)
}
