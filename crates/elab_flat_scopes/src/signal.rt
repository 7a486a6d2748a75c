// The signals of a module (IEEE 1364-2005, sections 4.2 and 12.3).

ghost use Rattle.std.specs.Prelude.{◌≡◌, List, [], IfOk, map, option_map};
ghost use Rattle.vlog_tree_runs.specs.Contents.{Decl as Declaration, joined, once, signals_in};
ghost use Rattle.vlog_tree_runs.specs.Scopes.{decl_at};
ghost use Rattle.elab_flat_scopes.specs.Borrowed.{name_meant, decl_meant};
ghost use Rattle.elab_flat_scopes.specs.Finding.{decl_name};
ghost use Rattle.elab_flat_scopes.specs.Sides.{is_on, names_on, AreSides};

use crate::decl::{Decl, decls_in};
use crate::names::Names;
use outside::Text;
use std::alloc::{AllocError, Global};
use std::collections::HashSet;
use std::marker::Model;
use vlog_tree::Module;

// What a declaration may say of its signal.
#[derive(Clone, Copy)]
enum Side {
    Input,
    Output,
    Register,
}

// The names that some declaration says so of.
#[derive(Drop)]
struct Sides<'a> {
    inputs: Names<'a>,
    outputs: Names<'a>,
    registers: Names<'a>,
}

fn is_on(side: Side, decl: &Decl<'_>) -> bool
    ensures { result ≡ is_on side (decl_meant decl.now) }
{
    match side {
        Side::Input => decl.input,
        Side::Output => decl.output,
        Side::Register => decl.reg,
    }
}

fn names_on<'a>(alloc: Global, side: Side, decls: &[Decl<'a>]) -> Result<Names<'a>, AllocError>
    ensures { IfOk result (λ names. names ≡ names_on side (map decl_meant decls.now)) }
{
    let mut names = Vec::new(alloc);
    for decl in decls {
        if is_on(side, decl) {
            names.push(decl.name)?;
        }
    }
    Names::of(alloc, names)
}

fn sides_of<'a>(alloc: Global, decls: &[Decl<'a>]) -> Result<Sides<'a>, AllocError>
    ensures { IfOk result (AreSides (map decl_meant decls.now)) }
{
    Ok(Sides {
        inputs: names_on(alloc, Side::Input, decls)?,
        outputs: names_on(alloc, Side::Output, decls)?,
        registers: names_on(alloc, Side::Register, decls)?,
    })
}

// A declaration with what all declarations of its name say.
fn joined<'a>(sides: &Sides<'_>, decl: &Decl<'a>) -> Decl<'a>
    ensures { (all : List Declaration) → AreSides all sides.now → decl_meant result ≡ joined all (decl_meant decl.now) }
{
    let name = decl.name.bytes();
    Decl {
        name: decl.name,
        shape: decl.shape,
        input: sides.inputs.has(name),
        output: sides.outputs.has(name),
        reg: sides.registers.has(name),
        words: decl.words,
    }
}

// Each name once, in the order of the first declarations.
fn once<'a>(
    alloc: Global,
    decls: &[Decl<'a>],
    sides: &Sides<'_>,
) -> Result<Vec<Decl<'a>>, AllocError>
    requires { AreSides (map decl_meant decls.now) sides.now }
    ensures { IfOk result (λ r. map decl_meant r.items ≡ once (map decl_meant decls.now) []
        (map decl_meant decls.now)) }
{
    let mut done = HashSet::new(alloc);
    let mut all = Vec::new(alloc);
    for decl in decls {
        if done.insert(decl.name.bytes())? {
            all.push(joined(sides, decl))?;
        }
    }
    Ok(all)
}

/// The signals of a module, in the order of their first declarations: each name once, with what all its declarations
/// say together.
pub fn signals_in(alloc: Global, text: &Module) -> Result<Vec<Decl<'_>>, AllocError>
    ensures { IfOk result (λ r. map decl_meant r.items ≡ signals_in text.now) }
{
    let decls = decls_in(alloc, text)?;
    let sides = sides_of(alloc, &decls)?;
    once(alloc, &decls, &sides)
}

/// The signals of a module, of which the one with a name is found at once. Contracts see them as their list.
#[derive(Drop)]
pub struct Signals<'a> {
    list: Vec<Decl<'a>>,
    names: Names<'a>,
}

impl<'a> Model for Signals<'a> {
    ghost use Rattle.std.specs.Prelude.{◌≡◌, List, map};
    ghost use Rattle.std.specs.Coded.{codes};
    ghost use Rattle.vlog_tree.specs.contracts.expr.Expr as expr;
    ghost use Rattle.vlog_tree_runs.specs.Contents.{Decl as Declaration};
    ghost use Rattle.elab_flat_scopes.specs.Borrowed.{decl_meant};
    ghost use Rattle.elab_flat_scopes.specs.Finding.{decl_name};

    ghost Value = { List Declaration };

    ghost coded = { Prim.hlevel (codes, expr.the_row.coded) };

    ghost view = { λ x. map decl_meant x.list.items };

    ghost invariant = { λ x. x.names ≡ map decl_name (map decl_meant x.list.items) };
}

fn names_of<'a>(alloc: Global, decls: &[Decl<'a>]) -> Result<Vec<&'a Text>, AllocError>
    ensures { IfOk result (λ names. map name_meant names.items ≡ map decl_name (map decl_meant decls.now)) }
{
    let mut names = Vec::new(alloc);
    for decl in decls {
        names.push(decl.name)?;
    }
    Ok(names)
}

impl<'a> Signals<'a> {
    /// The signals of a module.
    pub fn of(alloc: Global, text: &'a Module) -> Result<Signals<'a>, AllocError>
        ensures { IfOk result (λ signals. signals ≡ signals_in text.now) }
    {
        let list = signals_in(alloc, text)?;
        let names = Names::of(alloc, names_of(alloc, &list)?)?;
        Ok(Signals { list, names })
    }

    /// All of them, in their order.
    pub fn list(&self) -> &[Decl<'a>]
        ensures { map decl_meant result.now ≡ self.now }
    {
        &self.list
    }

    /// The signal of a name; none where the module has none of it.
    pub fn at(&self, name: &[u8]) -> Option<&Decl<'a>>
        ensures { option_map (λ d. decl_meant d.now) result ≡ decl_at self.now name.now }
    {
        match self.names.place(name) {
            Some(place) => self.list.get(place),
            None => None,
        }
    }
}
