// The items of a case statement.
ghost use Rattle.std.specs.Prelude.{◌≡◌, ◌∷◌, max, ◌&&◌, IfOk};
ghost use Rattle.word_dag.specs.Adding.{Keeps};
ghost use Rattle.vlog_tree.specs.Value.{IsFormed, bit};
ghost use Rattle.vlog_tree_values.specs.Shapes.{HasShape, each_formed};
ghost use Rattle.vlog_tree_runs.specs.Blocks.{widest, all_signed, case_width, case_sign, exprs_in};
ghost use Rattle.elab_step_expr.specs.Leaves.{AreReady, declared, valued};
ghost use Rattle.elab_step_expr.specs.Nodes.{Makes, number_at, words, IsWire};
ghost use Rattle.elab_step_blocks.specs.Ready.{ArePlaced};
ghost use Rattle.elab_step_blocks.specs.Cases.{is_chosen, each_labels, AreMatches};

use crate::cases::{Subject, any_node};
use elab_step_expr::{Leaves, Wire, constant, node_of, shape};
use std::alloc::{AllocError, Global};
use vlog_tree::{CaseItem, CaseKind, Expr, Labels};
use word_dag::Dag;

/// A case statement: its kind, its case expression and its items.
#[derive(Clone, Copy)]
pub struct Case<'a> {
    pub kind: CaseKind,
    pub subject: &'a Expr,
    pub items: &'a [CaseItem],
}

// The longest length so far and that of some labels, and whether all are signed.
fn with_labels(here: (u8, bool), labels: &[Expr], leaves: &Leaves) -> Result<(u8, bool), AllocError>
    requires { each_formed (declared leaves.now) labels.now }
    ensures width { IfOk result (λ s. s.0 ≡ max here.0 (widest (declared leaves.now) labels.now)) }
    ensures sign { IfOk result (λ s. s.1 ≡ (here.1 && all_signed (declared leaves.now) labels.now)) }
{
    let mut longest = here;
    for label in labels {
        let own = shape(label, leaves)?;
        longest = (longest.0.max(own.0), longest.1 && own.1);
    }
    Ok(longest)
}

// The length and the sign at which a case expression and the labels are compared.
fn compared_at(case: Case<'_>, leaves: &Leaves) -> Result<(u8, bool), AllocError>
    requires subject { IsFormed (declared leaves.now) case.subject.now }
    requires labels { each_formed (declared leaves.now) (each_labels case.items.now) }
    ensures width { IfOk result (λ s. s.0 ≡ case_width (declared leaves.now) case.entry.subject.now
        (each_labels case.entry.items.now)) }
    ensures sign { IfOk result (λ s. s.1 ≡ case_sign (declared leaves.now) case.entry.subject.now
        (each_labels case.entry.items.now)) }
{
    let mut longest = shape(case.subject, leaves)?;
    for item in case.items {
        let more = with_labels(longest, exprs_in(&item.labels), leaves)?;
        longest = more;
    }
    Ok(longest)
}

// The expressions of an item, none where it is the default.
fn exprs_in(labels: &Labels) -> &[Expr]
    ensures { result.now ≡ exprs_in labels.now }
{
    match labels {
        Labels::Exprs(exprs) => exprs.as_slice(),
        Labels::Default => &[],
    }
}

// Whether a label of an item matches. No label of `default` does.
fn item_node(
    dag: &mut Dag,
    subject: Subject,
    labels: &Labels,
    leaves: &Leaves,
) -> Result<u64, AllocError>
    requires ready { AreReady leaves.now dag.old }
    requires subject { IsWire dag.old subject.wire }
    requires labels { ArePlaced (declared leaves.now) (exprs_in labels.now) subject.wire.width subject.signed }
    ensures keeps { Keeps dag.old dag.new }
    ensures makes { IfOk result (λ r. Makes dag.new r 1
        (λ e. bit (is_chosen subject.kind (valued leaves.now (words e dag.old)) subject.wire.width subject.signed
        (number_at e dag.old subject.wire.node) labels.now))) }
{
    match labels {
        Labels::Exprs(labels) => {
            let number = any_node(dag, subject, labels.as_slice(), leaves)?;
            Ok(number)
        }
        Labels::Default => {
            let number = constant(dag, 1, 0)?;
            Ok(number)
        }
    }
}

/// For each item a bit that is 1 where one of its labels matches the case expression, all of them read from these
/// leaves.
pub fn item_tests(dag: &mut Dag, case: Case<'_>, leaves: &Leaves) -> Result<Vec<u64>, AllocError>
    requires ready { AreReady leaves.now dag.old }
    requires placed { ArePlaced (declared leaves.now) (case.subject.now ∷ each_labels case.items.now)
        (case_width (declared leaves.now) case.subject.now (each_labels case.items.now))
        (case_sign (declared leaves.now) case.subject.now (each_labels case.items.now)) }
    ensures keeps { Keeps dag.old dag.new }
    ensures matches { IfOk result (λ r. AreMatches case.entry.kind leaves.now case.entry.subject.now
        (case_width (declared leaves.now) case.entry.subject.now (each_labels case.entry.items.now))
        (case_sign (declared leaves.now) case.entry.subject.now
        (each_labels case.entry.items.now)) dag.old case.entry.items.now r.items dag.new) }
{
    let place = compared_at(case, leaves)?;
    let node = node_of(dag, case.subject, place.0, place.1, leaves)?;
    let subject = Subject {
        kind: case.kind,
        wire: Wire {
            node,
            width: place.0,
        },
        signed: place.1,
    };
    let mut tests = Vec::new(leaves.allocator());
    for item in case.items {
        let test = item_node(dag, subject, &item.labels, leaves)?;
        tests.push(test)?;
    }
    Ok(tests)
}
