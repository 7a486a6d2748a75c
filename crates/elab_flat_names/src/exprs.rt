// The expressions of a module's text.

ghost use Rattle.std.specs.Prelude.{◌≡◌, ◌++◌, ◌↔◌, OnOk, IfOk, map};
ghost use Rattle.std.specs.List.{flat_map};
ghost use Rattle.vlog_tree.specs.declared.expr.Expr.{Expr as Form};
ghost use Rattle.vlog_tree_runs.specs.Places.{Among};
ghost use Rattle.elab_flat_faults.specs.Texts.{own_exprs, all_exprs, decl_exprs, param_exprs, assign_exprs, inner_exprs};
ghost use Rattle.elab_flat_scopes.specs.Borrowed.{decl_meant, param_meant, assigned_meant, block_meant, inner_meant};
ghost use Rattle.elab_flat_names.specs.Exprs.{expr_meant, body_exprs, own_text_exprs, text_exprs};

use crate::decl::{add_decl, add_inner, add_param};
use crate::stmt::{add_assigned, add_block};
use elab_flat_scopes::{
    Assigned, Block, Decl, Inner, Param, assigns_in, blocks_in, decls_in, instances_in, params_in,
};
use std::alloc::{AllocError, Global};
use vlog_tree::{Expr, Module};

fn add_decls<'a>(all: &mut Vec<&'a Expr>, decls: &[Decl<'a>]) -> Result<(), AllocError>
    ensures { OnOk result (map expr_meant all.new.items ≡ map expr_meant all.old.items ++ flat_map decl_exprs
        (map decl_meant decls.now)) }
{
    for decl in decls {
        add_decl(all, decl)?;
    }
    Ok(())
}

fn add_params<'a>(all: &mut Vec<&'a Expr>, params: &[Param<'a>]) -> Result<(), AllocError>
    ensures { OnOk result (map expr_meant all.new.items ≡ map expr_meant all.old.items ++ flat_map param_exprs
        (map param_meant params.now)) }
{
    for param in params {
        add_param(all, param)?;
    }
    Ok(())
}

fn add_assigns<'a>(
    all: &mut Vec<&'a Expr>,
    alloc: Global,
    assigns: &[Assigned<'a>],
) -> Result<(), AllocError>
    ensures { OnOk result (map expr_meant all.new.items ≡ map expr_meant all.old.items ++ flat_map assign_exprs
        (map assigned_meant assigns.now)) }
{
    for assigned in assigns {
        add_assigned(all, alloc, assigned)?;
    }
    Ok(())
}

fn add_blocks<'a>(
    all: &mut Vec<&'a Expr>,
    alloc: Global,
    blocks: &[Block<'a>],
) -> Result<(), AllocError>
    ensures { OnOk result (map expr_meant all.new.items ≡ map expr_meant all.old.items ++ flat_map body_exprs
        (map block_meant blocks.now)) }
{
    for block in blocks {
        add_block(all, alloc, block)?;
    }
    Ok(())
}

fn add_inners<'a>(all: &mut Vec<&'a Expr>, instances: &[Inner<'a>]) -> Result<(), AllocError>
    ensures { OnOk result (map expr_meant all.new.items ≡ map expr_meant all.old.items ++ flat_map inner_exprs
        (map inner_meant instances.now)) }
{
    for inner in instances {
        add_inner(all, inner)?;
    }
    Ok(())
}

fn own_text_exprs(alloc: Global, text: &Module) -> Result<Vec<&Expr>, AllocError>
    ensures { IfOk result (λ r. map expr_meant r.items ≡ own_text_exprs text.now) }
{
    let decls = decls_in(alloc, text)?;
    let params = params_in(alloc, text)?;
    let assigns = assigns_in(alloc, text)?;
    let blocks = blocks_in(alloc, text)?;
    let mut all = Vec::new(alloc);
    add_decls(&mut all, &decls)?;
    add_params(&mut all, &params)?;
    add_assigns(&mut all, alloc, &assigns)?;
    add_blocks(&mut all, alloc, &blocks)?;
    Ok(all)
}

fn text_exprs(alloc: Global, text: &Module) -> Result<Vec<&Expr>, AllocError>
    ensures { IfOk result (λ r. map expr_meant r.items ≡ text_exprs text.now) }
{
    let instances = instances_in(alloc, text)?;
    let mut all = own_text_exprs(alloc, text)?;
    add_inners(&mut all, &instances)?;
    Ok(all)
}

/// The expressions of a module's text outside its instances.
pub fn own_exprs_in(alloc: Global, text: &Module) -> Result<Vec<&Expr>, AllocError>
    ensures { IfOk result (λ r. (a : Form) → Among (map expr_meant r.items) a ↔ Among (own_exprs text.now) a) }
{
    let own = own_text_exprs(alloc, text)?;
    Ok(own)
}

/// All expressions of a module's text, those of overrides and connections among them.
pub fn exprs_in(alloc: Global, text: &Module) -> Result<Vec<&Expr>, AllocError>
    ensures { IfOk result (λ r. (a : Form) → Among (map expr_meant r.items) a ↔ Among (all_exprs text.now) a) }
{
    let all = text_exprs(alloc, text)?;
    Ok(all)
}
