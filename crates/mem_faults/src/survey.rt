// A module's memories and how its texts use them: what the faults are told by (IEEE 1364-2005, section 4.9).

ghost use Rattle.std.specs.Prelude.{◌≡◌, ◌≤◌, ◌++◌, if◌then◌else◌, true, OnOk, IfOk, IfSome, IfNone, filter, length, map};
ghost use Rattle.std.specs.List.{flat_map, list_any};
ghost use Rattle.vlog_tree.specs.declared.stmt.Lval.{Lval};
ghost use Rattle.vlog_tree_runs.specs.Places.{Name, Among};
ghost use Rattle.vlog_tree_runs.specs.Contents.{is_among};
ghost use Rattle.elab_flat_faults.specs.Texts.{names_in};
ghost use Rattle.elab_flat_scopes.specs.Borrowed.{name_meant};
ghost use Rattle.elab_flat_drivers.specs.Claims.{part_name};
ghost use Rattle.elab_flat_drivers.specs.Parts.{part_meant};
ghost use Rattle.mem_laws.specs.Uses.{listed};
ghost use Rattle.mem_faults.specs.Used.{memory_names, memories_of, uses_of, whole_names, is_indexed, is_nested, block_listed};

use crate::uses::uses_of;
use elab_flat_drivers::{Part, name_of, reads_of};
use elab_flat_scopes::Names;
use outside::Text;
use sqlite_items::Items;
use std::alloc::{AllocError, Global};
use vlog_tree::Expr;
use vlog_tree_runs::{Always, Flat, Signal};

/// The memories of a module, and all uses of names in its texts.
#[derive(Drop)]
pub struct Survey<'a> {
    pub memories: Names<'a>,
    pub uses: Vec<Part<'a>>,
}

// The names of the memories.
fn memories(alloc: Global, signals: &[Signal]) -> Result<Names<'_>, AllocError>
    ensures { IfOk result (λ r. r ≡ flat_map memory_names signals.now) }
{
    let mut all = Vec::new(alloc);
    for signal in signals {
        if signal.depth != 0 {
            all.push(&signal.name)?;
        }
    }
    Names::of(alloc, all)
}

// ---- uses without exactly one plain index

fn add_wholes<'a>(all: &mut Vec<&'a Text>, uses: &[Part<'a>]) -> Result<(), AllocError>
    ensures { OnOk result (map name_meant all.new.items ≡ map name_meant all.old.items ++ flat_map whole_names
        (map part_meant uses.now)) }
{
    for part in uses {
        match part {
            Part::Whole(name) => all.push(name)?,
            Part::Bit(_, _) => {}
            Part::Bits(name, _, _, _) => all.push(name)?,
        }
    }
    Ok(())
}

fn add_names<'a>(all: &mut Vec<&'a Text>, names: &'a [Text]) -> Result<(), AllocError>
    ensures { OnOk result (map name_meant all.new.items ≡ map name_meant all.old.items ++ names.now) }
{
    for name in names {
        all.push(name)?;
    }
    Ok(())
}

fn add_list<'a>(all: &mut Vec<&'a Text>, names: &'a Option<Items<Text>>) -> Result<(), AllocError>
    ensures { OnOk result (map name_meant all.new.items ≡ map name_meant all.old.items ++ listed names.now) }
{
    match names {
        Some(names) => add_names(all, names.as_slice()),
        None => Ok(()),
    }
}

// The names that blocks without edges wait for.
fn add_lists<'a>(all: &mut Vec<&'a Text>, blocks: &'a [Always]) -> Result<(), AllocError>
    ensures { OnOk result (map name_meant all.new.items ≡ map name_meant all.old.items ++ flat_map block_listed blocks.now) }
{
    for block in blocks {
        add_list(all, &block.names)?;
    }
    Ok(())
}

/// The first of some names that stands among others.
pub fn first_among<'a>(names: &[&'a Text], others: &Names<'_>) -> Option<&'a Text>
    ensures some { IfSome result (λ x. Among (map name_meant names.now) x.now × Among others.now x.now) }
    ensures none { IfNone result ((x : Name) → Among (map name_meant names.now) x → Among others.now x → ⊥) }
{
    for name in names {
        if others.has(name.bytes()) {
            return Some(name);
        }
    }
    None
}

// ---- indices

// Whether an expression names one of these memories.
fn names_memory(alloc: Global, expr: &Expr, memories: &Names<'_>) -> Result<bool, AllocError>
    ensures { IfOk result (λ r. r ≡ list_any (is_among memories.now) (names_in expr.now)) }
{
    let parts = reads_of(alloc, expr)?;
    for part in &parts {
        if memories.has(name_of(*part).bytes()) {
            return Ok(true);
        }
    }
    Ok(false)
}

fn is_nested(alloc: Global, part: Part<'_>, memories: &Names<'_>) -> Result<bool, AllocError>
    ensures { IfOk result (λ r. r ≡ is_nested memories.now (part_meant part.entry)) }
{
    match part {
        Part::Whole(_) => Ok(false),
        Part::Bit(name, index) => {
            let nested = names_memory(alloc, index, memories)?;
            Ok(memories.has(name.bytes()) && nested)
        }
        Part::Bits(_, _, _, _) => Ok(false),
    }
}

fn is_indexed(part: Part<'_>, memories: &Names<'_>) -> bool
    ensures { result ≡ is_indexed memories.now (part_meant part.entry) }
{
    match part {
        Part::Whole(_) => false,
        Part::Bit(name, _) => memories.has(name.bytes()),
        Part::Bits(_, _, _, _) => false,
    }
}

fn uses_once(part: Part<'_>, memories: &Names<'_>) -> usize
    ensures value { result ≡ (if is_indexed memories.now (part_meant part.entry) then 1 else 0) }
    ensures most { result ≤ 1 }
{
    if is_indexed(part, memories) { 1 } else { 0 }
}

impl<'a> Survey<'a> {
    /// The memories of a module, and all uses of names in its texts.
    pub fn of(alloc: Global, flat: &'a Flat) -> Result<Survey<'a>, AllocError>
        ensures memories { IfOk result (λ r. r.memories ≡ memories_of flat.now) }
        ensures uses { IfOk result (λ r. map part_meant r.uses.items ≡ uses_of flat.now) }
    {
        let memories = memories(alloc, flat.signals.as_slice())?;
        let uses = uses_of(alloc, flat)?;
        Ok(Survey { memories, uses })
    }

    /// A memory that is used without exactly one plain index; blocks without edges wait for such uses.
    pub fn whole(&self, alloc: Global, blocks: &'a [Always]) -> Result<Option<&'a Text>, AllocError>
        ensures some { IfOk result (λ o. IfSome o (λ x.
            Among (flat_map whole_names (map part_meant self.now.uses.items) ++ flat_map block_listed blocks.now) x.now × Among self.now.memories x.now)) }
        ensures none { IfOk result (λ o. IfNone o ((x : Name) →
            Among (flat_map whole_names (map part_meant self.now.uses.items) ++ flat_map block_listed blocks.now) x → Among self.now.memories x → ⊥)) }
    {
        let mut names = Vec::new(alloc);
        add_wholes(&mut names, &self.uses)?;
        add_lists(&mut names, blocks)?;
        Ok(first_among(&names, &self.memories))
    }

    /// A memory with an index that names a memory.
    pub fn nested(&self, alloc: Global) -> Result<Option<&'a Text>, AllocError>
        ensures some { IfOk result (λ o. IfSome o (λ x.
            (q : Lval) × Among (map part_meant self.now.uses.items) q × (is_nested self.now.memories q ≡ true) × (part_name q ≡ x.now))) }
        ensures none { IfOk result (λ o. IfNone o ((q : Lval) → Among (map part_meant self.now.uses.items) q →
            is_nested self.now.memories q ≡ true → ⊥)) }
    {
        for part in &self.uses {
            if is_nested(alloc, *part, &self.memories)? {
                return Ok(Some(name_of(*part)));
            }
        }
        Ok(None)
    }

    /// How often the texts use memories with one index.
    pub fn indexed(&self) -> usize
        ensures { result ≡ length (filter (is_indexed self.now.memories) (map part_meant self.now.uses.items)) }
    {
        let mut count = 0;
        for part in &self.uses {
            count += uses_once(*part, &self.memories);
        }
        count
    }
}
