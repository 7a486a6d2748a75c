// The statements of blocks (IEEE 1364-2005, section 9).

ghost use Rattle.std.specs.Prelude.{◌≡◌, map, OnOk, IfErr};
ghost use Rattle.vlog_tree_runs.specs.Places.{Among};
ghost use Rattle.vlog_tree_runs.specs.Contents.{Block as Process, blocks_in};
ghost use Rattle.vlog_tree_runs.specs.Scopes.{place_of};
ghost use Rattle.elab_flat_faults.specs.Constants.{at_rest};
ghost use Rattle.elab_flat_scopes.specs.Borrowed.{block_meant};
ghost use Rattle.elab_flat_instances.specs.Unfolding.{scope_meant};
ghost use Rattle.elab_flat_widths.specs.Taken.{Fails};
ghost use Rattle.elab_flat_widths.specs.Usages.{Usage, usages, UsesSignals, IsSoundUsage, BreaksUsage, BodyUsesSignals, IsSoundBody, BreaksBody};
ghost use Rattle.elab_flat_widths.specs.Sites.{site_meant};

use crate::cases::check_cases;
use crate::side::Side;
use crate::site::{Site, sites_of};
use crate::store::Store;
use crate::taken::check_alone;
use crate::violation::Violation;
use elab_flat_drivers::parts_of;
use elab_flat_instances::Scope;
use elab_flat_scopes::{Block, blocks_in};
use std::alloc::Global;
use vlog_tree::{Stmt, Valuation};

// What a statement does at one place keeps the rules.
fn check_site(
    alloc: Global,
    scope: &Scope<'_>,
    rest: &Valuation,
    site: Site<'_>,
) -> Result<(), Violation>
    requires rest { rest.now ≡ at_rest (place_of (scope_meant scope.now)) }
    requires signals { UsesSignals (place_of (scope_meant scope.now)) (site_meant site) }
    ensures ok { OnOk result (IsSoundUsage (place_of (scope_meant scope.now)) (site_meant site.entry)) }
    ensures err { IfErr result (Fails (BreaksUsage (place_of (scope_meant scope.now)) (site_meant site.entry))) }
{
    match site {
        Site::Test(expr) => check_alone(alloc, expr, &scope.params, rest),
        Site::Cases(subject, items) => check_cases(alloc, subject, items, &scope.params, rest),
        Site::Store(left, right) => {
            let parts = parts_of(alloc, left)?;
            let store = Store {
                side: Side::Procedural,
                parts: &parts,
                right,
            };
            store.check(alloc, &scope.params, rest)
        }
    }
}

// A statement keeps the rules.
fn check_body(
    alloc: Global,
    scope: &Scope<'_>,
    rest: &Valuation,
    body: &Stmt,
) -> Result<(), Violation>
    requires rest { rest.now ≡ at_rest (place_of (scope_meant scope.now)) }
    requires signals { BodyUsesSignals (place_of (scope_meant scope.now)) body.now }
    ensures ok { OnOk result (IsSoundBody (place_of (scope_meant scope.now)) body.now) }
    ensures err { IfErr result (Fails (BreaksBody (place_of (scope_meant scope.now)) body.now)) }
{
    let sites = sites_of(alloc, body)?;
    for site in &sites {
        match check_site(alloc, scope, rest, *site) {
            Ok(()) => {}
            Err(violation) => return Err(violation),
        }
    }
    Ok(())
}

fn check_each(
    alloc: Global,
    scope: &Scope<'_>,
    rest: &Valuation,
    blocks: &[Block<'_>],
) -> Result<(), Violation>
    requires rest { rest.now ≡ at_rest (place_of (scope_meant scope.now)) }
    requires signals { (k : Process) → Among (map block_meant blocks.now) k →
        BodyUsesSignals (place_of (scope_meant scope.now)) k.body }
    ensures ok { OnOk result ((k : Process) → Among (map block_meant blocks.now) k →
        IsSoundBody (place_of (scope_meant scope.now)) k.body) }
    ensures err { IfErr result (Fails (λ w. (k : Process) × Among (map block_meant blocks.now) k ×
        BreaksBody (place_of (scope_meant scope.now)) k.body w)) }
{
    for block in blocks {
        match check_body(alloc, scope, rest, block.body) {
            Ok(()) => {}
            Err(violation) => return Err(violation),
        }
    }
    Ok(())
}

/// The blocks of a scope's text keep the rules.
pub fn check_blocks(alloc: Global, scope: &Scope<'_>, rest: &Valuation) -> Result<(), Violation>
    requires rest { rest.now ≡ at_rest (place_of (scope_meant scope.now)) }
    requires signals { (k : Process) → Among (blocks_in scope.now.text.now) k →
        BodyUsesSignals (place_of (scope_meant scope.now)) k.body }
    ensures ok { OnOk result ((k : Process) → Among (blocks_in scope.now.text.now) k →
        IsSoundBody (place_of (scope_meant scope.now)) k.body) }
    ensures err { IfErr result (Fails (λ w. (k : Process) × Among (blocks_in scope.now.text.now) k ×
        BreaksBody (place_of (scope_meant scope.now)) k.body w)) }
{
    let blocks = blocks_in(alloc, scope.text)?;
    check_each(alloc, scope, rest, &blocks)
}
