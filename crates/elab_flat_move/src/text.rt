// What the text of a scope gives to a module without instances.

ghost use Rattle.std.specs.Prelude.{◌≡◌, ◌++◌, [], IfOk, map};
ghost use Rattle.vlog_tree_runs.specs.Contents.{is_clocked};
ghost use Rattle.elab_flat_laws.specs.Moved.{moved_signal};
ghost use Rattle.elab_flat_laws.specs.Flattened.{moved_link, moved_names, moved_block};

use crate::expr::{Mover, joined};
use crate::pair::both;
use outside::Text;
use sqlite_items::Items;
use std::alloc::{AllocError, Global};
use vlog_tree::{Assign, Events, Expr, Lval, Stmt, Valuation};
use vlog_tree_runs::{Always, Signal};

/// A signal of a scope with this prefix.
pub fn moved_signal(alloc: Global, prefix: &[u8], signal: &Signal) -> Result<Signal, AllocError>
    ensures { IfOk result (λ r. r ≡ moved_signal prefix.now signal.now) }
{
    Ok(Signal {
        name: joined(alloc, prefix, signal.name.bytes())?,
        width: signal.width,
        low: signal.low,
        signed: signal.signed,
        reg: signal.reg,
        depth: signal.depth,
    })
}

fn is_clocked(events: &Events) -> bool
    ensures { result ≡ is_clocked events.now }
{
    match events {
        Events::Edges(_) => true,
        Events::All | Events::Names(_) => false,
    }
}

fn names_under(alloc: Global, prefix: &[u8], names: &[Text]) -> Result<Items<Text>, AllocError>
    ensures { IfOk result (λ r. r ≡ map (λ x. prefix.now ++ x) names.now) }
{
    let mut all = Items::new(alloc);
    for name in names {
        all.push(joined(alloc, prefix, name.bytes())?)?;
    }
    Ok(all)
}

fn moved_names(
    alloc: Global,
    prefix: &[u8],
    events: &Events,
) -> Result<Option<Items<Text>>, AllocError>
    ensures { IfOk result (λ r. r ≡ moved_names prefix.now events.now) }
{
    match events {
        Events::All => Ok(None),
        Events::Edges(_) => Ok(None),
        Events::Names(names) => Ok(Some(names_under(alloc, prefix, names.as_slice())?)),
    }
}

/// An `always` block of a scope with this prefix and these parameters.
pub fn moved_block(
    alloc: Global,
    prefix: &[u8],
    params: &Valuation,
    events: &Events,
    body: &Stmt,
) -> Result<Always, AllocError>
    ensures { IfOk result (λ r.
        r ≡ moved_block (record { prefix = prefix.now; signals = []; params = params.now }) (record { events = events.now; body = body.now })) }
{
    let mover = Mover {
        alloc,
        prefix,
        params,
    };
    let (names, body) = both(moved_names(alloc, prefix, events), mover.stmt(body))?;
    Ok(Always {
        clocked: is_clocked(events),
        names,
        body,
    })
}

/// A continuous assignment or the connection of a port: its left side stands in one scope, its right side in one that
/// may be another.
pub fn moved_link(
    into: &Mover<'_>,
    left: &Lval,
    from: &Mover<'_>,
    right: &Expr,
) -> Result<Assign, AllocError>
    ensures { IfOk result (λ r.
        r ≡ moved_link (record {
          into = record { prefix = into.now.prefix.now; signals = []; params = into.now.params.now };
          left = left.now;
          from = record { prefix = from.now.prefix.now; signals = []; params = from.now.params.now };
          right = right.now;
        })) }
{
    let (left, right) = both(into.left(left), from.expr(right))?;
    Ok(Assign { left, right })
}
