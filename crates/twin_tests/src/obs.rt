// The obligations of a set's lines.
ghost use Rattle.std.specs.Prelude.{◌≡◌, ◌<◌, length, IfOk, OnOk};
ghost use Rattle.std.specs.List.{All, AllZip};
ghost use Rattle.set_tree.specs.Report.{set_lines};
ghost use Rattle.twin_tests.specs.Framing.{AreFrames, SpeaksOf};
ghost use Rattle.twin_tests.specs.Named.{IsNamedOf, set_line};
ghost use Rattle.twin_tests.specs.Ordering.{line_of};
ghost use Rattle.twin_tests.specs.Reading.{HasStructure};
ghost use Rattle.twin_tests.specs.Sharing.{AreMade};
ghost use Rattle.word_dag.specs.Adding.{Keeps};
ghost use Rattle.word_dag.specs.Names.{HasOneWidthEach};

use crate::frame::frames_of;
use crate::lines::lines_of;
use crate::obligation::obligation_of;
use crate::set_line::SetLine;
use crate::shared::Nodes;
use crate::twins::Twins;
use set_tree_structure::Sound;
use std::alloc::{AllocError, Global};
use twin_tests_laws::line_name;
use word_dag::{Dag, Named};

impl Twins<'_> {
    // Puts the nodes of lines into the dag, one line after another.
    fn add_lines(&self, nodes: &mut Nodes, lines: &[SetLine]) -> Result<(), AllocError>
        requires structure { HasStructure self.now.set.now }
        requires lines { All (λ line. SpeaksOf self.now.set.now (line_of line)) lines.now }
        requires frames { AreFrames self.now.set.now nodes.old.dag self.now.frames }
        requires made { AreMade self.now.set.now nodes.old.dag nodes.old.made.items }
        ensures keeps { OnOk result (Keeps nodes.old.dag nodes.new.dag) }
        ensures made { OnOk result (AreMade self.now.set.now nodes.new.dag nodes.new.made.items) }
    {
        for line in lines {
            self.line_node(nodes, *line)?;
        }
        Ok(())
    }

    // The obligation of a line, with the line's name.
    fn named_ob(&self, nodes: &mut Nodes, line: SetLine) -> Result<Named, AllocError>
        requires structure { HasStructure self.now.set.now }
        requires line { SpeaksOf self.now.set.now (line_of line) }
        requires frames { AreFrames self.now.set.now nodes.old.dag self.now.frames }
        requires made { AreMade self.now.set.now nodes.old.dag nodes.old.made.items }
        requires words { HasOneWidthEach nodes.old.dag }
        ensures keeps { IfOk result (λ _. Keeps nodes.old.dag nodes.new.dag) }
        ensures made { IfOk result (λ _. AreMade self.now.set.now nodes.new.dag nodes.new.made.items) }
        ensures named { IfOk result (λ named. IsNamedOf self.now.set.now (line_of line) named) }
    {
        let root = self.line_node(nodes, line)?;
        let ob = obligation_of(self.alloc, &nodes.dag, root)?;
        let name = line_name(self.alloc, self.set, line.line())?;
        Ok(Named { name, ob })
    }
}

/// The obligations of the lines of a set, in the order of a report: for each line its name, and nodes whose root is 1
/// exactly at values whose windows violate the line, no two free words of which have one name, side and cycle. Where
/// the end of a property may lie at several offsets, the windows of each reach as far as that end asks.
pub fn twin_obs(alloc: Global, sound: &Sound) -> Result<Vec<Named>, AllocError>
    ensures { IfOk result (λ obs. AllZip (IsNamedOf sound.now) (set_lines sound.now) obs.items) }
{
    let set = sound.set();
    let lines = lines_of(alloc, set)?;
    let mut dag = Dag::new(alloc);
    let frames = frames_of(alloc, &mut dag, set)?;
    let mut nodes = Nodes::new(alloc, dag, set)?;
    let twins = Twins { alloc, set, frames };
    let mut obs = Vec::with_capacity(alloc, lines.len())?;
    for line in &lines {
        let named = twins.named_ob(&mut nodes, *line)?;
        obs.push(named)?;
    }
    Ok(obs)
}

/// The obligation of one line of a set, that of this number in the order of a report: it is the one that `twin_obs`
/// makes of the line, node by node. So the nodes of the lines before it are put into the dag too, but no other line's
/// obligation is taken out of it.
pub fn twin_ob(alloc: Global, sound: &Sound, number: usize) -> Result<Named, AllocError>
    requires { number < length (set_lines sound.now) }
    ensures { IfOk result (IsNamedOf sound.now (set_line sound.now number)) }
{
    let set = sound.set();
    let lines = lines_of(alloc, set)?;
    let mut dag = Dag::new(alloc);
    let frames = frames_of(alloc, &mut dag, set)?;
    let mut nodes = Nodes::new(alloc, dag, set)?;
    let twins = Twins { alloc, set, frames };
    twins.add_lines(&mut nodes, &lines[..number])?;
    twins.named_ob(&mut nodes, lines[number])
}
