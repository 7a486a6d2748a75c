// The free words of windows.
ghost use Rattle.std.specs.Prelude.{◌≡◌, ◌≤◌, ℕ, List, map, length, take, IfOk};
ghost use Rattle.std.specs.List.{All};
ghost use Rattle.vlog_tree.specs.Valuation.{IsLength};
ghost use Rattle.word_dag.specs.Nodes.{Naming};
ghost use Rattle.word_dag.specs.Adding.{Grows};
ghost use Rattle.elab_step_expr.specs.Nodes.{AddsFrees};
ghost use Rattle.twin_tests_laws.specs.Windows.{side_of, named_value, rows_from};
ghost use Rattle.twin_tests.specs.Building.{Counts, HasWidth, Shows, ShowsRow};
ghost use Rattle.twin_tests.specs.Framing.{free_of, IsWordOf, IsWindowWord};

use outside::Text;
use set_tree::{Name, Role};
use std::alloc::{AllocError, Global};
use std::marker::Model;
use word_dag::{Dag, Node};

/// A node for each declared name in one cycle.
#[derive(Drop)]
pub struct NodeRow {
    nodes: Vec<u64>,
}

impl Model for NodeRow {
    ghost use Rattle.std.specs.Prelude.{List, ℕ};

    ghost Value = { List ℕ };

    ghost view = { λ r. r.nodes.items };
}

impl NodeRow {
    /// The row of these nodes, in the order of the declared names.
    pub fn new(nodes: Vec<u64>) -> NodeRow
        ensures { result ≡ nodes.items }
    {
        NodeRow { nodes }
    }

    /// The nodes, in the order of the declared names.
    pub fn nodes(&self) -> &[u64]
        ensures { result.now ≡ self.now }
    {
        self.nodes.as_slice()
    }
}

// Inputs have side 0 in both windows.
fn side_of(role: Role, side: u8) -> u8
    ensures { result ≡ side_of role side }
{
    match role {
        Role::Input => 0,
        Role::Output | Role::State => side,
    }
}

// The free word of a name at a cycle of one side.
#[tactic(auto, using(elab_step_expr::proofs::Kept::free_added))]
fn free_node(
    alloc: Global,
    dag: &mut Dag,
    name: &Name,
    side: u8,
    cycle: u8,
) -> Result<u64, AllocError>
    requires { IsLength name.now.width }
    ensures grows { IfOk result (λ _. Grows dag.old dag.new) }
    ensures frees { IfOk result (λ _. AddsFrees (λ n. n ≡ free_of name.now side cycle) dag.old dag.new) }
    ensures width { IfOk result (λ i. HasWidth dag.new i name.now.width) }
    ensures node { IfOk result (λ i. Counts dag.new i (λ e. named_value e side cycle name.now)) }
{
    dag.add(Node::Free {
        name: Text::copy(alloc, name.name.bytes())?,
        width: name.width,
        side: side_of(name.role, side),
        cycle: i16::from(cycle),
    })
}

// The free words of the names at a cycle of one side.
fn row_nodes(
    alloc: Global,
    dag: &mut Dag,
    names: &[Name],
    side: u8,
    cycle: u8,
) -> Result<NodeRow, AllocError>
    requires { All (λ n. IsLength n.width) names.now }
    ensures grows { IfOk result (λ _. Grows dag.old dag.new) }
    ensures frees { IfOk result (λ _. AddsFrees (IsWordOf names.now side cycle) dag.old dag.new) }
    ensures row { IfOk result (λ row. ShowsRow names.now dag.new row (λ e. map (named_value e side cycle) names.now)) }
{
    let mut nodes = Vec::new(alloc);
    for name in names {
        let node = free_node(alloc, dag, name, side, cycle)?;
        nodes.push(node)?;
    }
    Ok(NodeRow::new(nodes))
}

/// The free words of the names at the first cycles of one side.
pub fn window_nodes(
    alloc: Global,
    dag: &mut Dag,
    names: &[Name],
    side: u8,
    count: u8,
) -> Result<Vec<NodeRow>, AllocError>
    requires { All (λ n. IsLength n.width) names.now }
    ensures grows { IfOk result (λ _. Grows dag.old dag.new) }
    ensures frees { IfOk result (λ _. AddsFrees (IsWindowWord names.now side) dag.old dag.new) }
    ensures rows { IfOk result (λ rows. Shows names.now dag.new rows.items (λ e. rows_from names.now e side 0 count)) }
{
    let mut rows = Vec::new(alloc);
    for cycle in 0..count {
        let row = row_nodes(alloc, dag, names, side, cycle)?;
        rows.push(row)?;
    }
    Ok(rows)
}

/// The rows before this one.
pub fn rows_before(rows: &[NodeRow], count: usize) -> &[NodeRow]
    requires { count ≤ length rows.now }
    ensures { result.now ≡ take count rows.now }
{
    &rows[..count]
}
