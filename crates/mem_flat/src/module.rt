// The module without its memories.

ghost use Rattle.std.specs.Prelude.{◌≡◌, ◌⊎◌, [], ◌∷◌, ◌++◌, IfOk, IfErr, map};
ghost use Rattle.std.specs.List.{flat_map};
ghost use Rattle.vlog_tree_runs.specs.Cycles.{flat_place};
ghost use Rattle.elab_flat_faults.specs.Constants.{at_rest};
ghost use Rattle.mem_laws.specs.declared.fault.MemFault.TheVariants as m;
ghost use Rattle.mem_laws.specs.Laws.{CanSpread, KeepsRuns, DeclaresWords};
ghost use Rattle.mem_laws.specs.Stands.{IsFaultless};
ghost use Rattle.mem_laws.specs.Spread.{spread_assign, spread_block, idle_words, keeper, spread_flat};
ghost use Rattle.mem_faults.specs.Asked.{IsReadyAssign, IsReadyBlock, AreReadyAssigns, AreReadyBlocks, IsReady};
ghost use Rattle.mem_faults.specs.Faults.{IsFirstFault};

use crate::idle::keepers;
use crate::spreader::Spreader;
use elab_flat_move::both;
use mem_faults::{all_holders, at_rest, fault_of};
use mem_laws::{MemFault, spread_declares_words, spread_keeps_runs};
use outside::Text;
use sqlite_items::Items;
use std::alloc::{AllocError, Global};
use vlog_tree::Assign;
use vlog_tree_runs::{Always, Async, Flat, TopPort};

// ---- texts

impl Spreader<'_> {
    fn assign(&self, assign: &Assign) -> Result<Assign, AllocError>
        requires { IsReadyAssign self.now.rest.now assign.now }
        ensures { IfOk result (λ r. r ≡ spread_assign self.now.rest.now assign.now) }
    {
        let (left, right) = both(self.left(&assign.left), self.expr(&assign.right))?;
        Ok(Assign { left, right })
    }

    fn assigns(&self, assigns: &[Assign]) -> Result<Items<Assign>, AllocError>
        requires { AreReadyAssigns self.now.rest.now assigns.now }
        ensures { IfOk result (λ r. r ≡ map (spread_assign self.now.rest.now) assigns.now) }
    {
        let mut all = Items::new(self.alloc);
        for assign in assigns {
            all.push(self.assign(assign)?)?;
        }
        Ok(all)
    }

    fn block_of(&self, block: &Always) -> Result<Always, AllocError>
        requires { IsReadyBlock self.now.rest.now block.now }
        ensures { IfOk result (λ r. r ≡ spread_block self.now.rest.now block.now) }
    {
        let (names, body) = both(listed(self.alloc, &block.names), self.stmt(&block.body))?;
        Ok(Always {
            clocked: block.clocked,
            names,
            body,
        })
    }

    fn blocks(&self, blocks: &[Always]) -> Result<Items<Always>, AllocError>
        requires { AreReadyBlocks self.now.rest.now blocks.now }
        ensures { IfOk result (λ r. r ≡ map (spread_block self.now.rest.now) blocks.now) }
    {
        let mut all = Items::new(self.alloc);
        for block in blocks {
            all.push(self.block_of(block)?)?;
        }
        Ok(all)
    }

    // The blocks, and those that keep the words that none of them assigns.
    fn all_blocks(&self, flat: &Flat) -> Result<Items<Always>, AllocError>
        requires rest { self.now.rest.now ≡ at_rest (flat_place flat.now) }
        requires ready { AreReadyBlocks self.now.rest.now flat.now.blocks }
        ensures { IfOk result (λ r. r ≡ map (spread_block self.now.rest.now) flat.now.blocks ++ map keeper
            (idle_words flat.now)) }
    {
        let blocks = self.blocks(flat.blocks.as_slice())?;
        let keepers = keepers(self.alloc, blocks.as_slice(), flat.signals.as_slice());
        let (mut blocks, keepers) = both(Ok(blocks), keepers)?;
        blocks.append(keepers)?;
        Ok(blocks)
    }

    // The module, with its ports, its clock and its resets as they are.
    fn flat(&self, flat: &Flat) -> Result<Flat, AllocError>
        requires rest { self.now.rest.now ≡ at_rest (flat_place flat.now) }
        requires assigns { AreReadyAssigns self.now.rest.now flat.now.assigns }
        requires blocks { AreReadyBlocks self.now.rest.now flat.now.blocks }
        ensures { IfOk result (λ r. r ≡ spread_flat flat.now) }
    {
        let texts = both(self.assigns(flat.assigns.as_slice()), self.all_blocks(flat));
        let signals = all_holders(self.alloc, flat.signals.as_slice());
        let ((signals, (assigns, blocks)), head) = both(
            both(signals, texts),
            copied_head(self.alloc, flat),
        )?;
        Ok(Flat {
            signals,
            assigns,
            blocks,
            ports: head.ports,
            clock: head.clock,
            asyncs: head.asyncs,
        })
    }
}

// ---- what stays

fn copied_names(alloc: Global, names: &[Text]) -> Result<Items<Text>, AllocError>
    ensures { IfOk result (λ r. r ≡ names.now) }
{
    let mut all = Items::new(alloc);
    for name in names {
        all.push(Text::copy(alloc, name.bytes())?)?;
    }
    Ok(all)
}

fn listed(alloc: Global, names: &Option<Items<Text>>) -> Result<Option<Items<Text>>, AllocError>
    ensures { IfOk result (λ r. r ≡ names.now) }
{
    match names {
        Some(names) => Ok(Some(copied_names(alloc, names.as_slice())?)),
        None => Ok(None),
    }
}

fn copied_ports(alloc: Global, ports: &[TopPort]) -> Result<Items<TopPort>, AllocError>
    ensures { IfOk result (λ r. r ≡ ports.now) }
{
    let mut all = Items::new(alloc);
    for port in ports {
        let name = Text::copy(alloc, port.name.bytes())?;
        all.push(TopPort {
            name,
            output: port.output,
        })?;
    }
    Ok(all)
}

fn copied_asyncs(alloc: Global, asyncs: &[Async]) -> Result<Items<Async>, AllocError>
    ensures { IfOk result (λ r. r ≡ asyncs.now) }
{
    let mut all = Items::new(alloc);
    for reset in asyncs {
        let name = Text::copy(alloc, reset.name.bytes())?;
        all.push(Async {
            name,
            high: reset.high,
        })?;
    }
    Ok(all)
}

fn copied_clock(alloc: Global, clock: &Option<Text>) -> Result<Option<Text>, AllocError>
    ensures { IfOk result (λ r. r ≡ clock.now) }
{
    match clock {
        Some(name) => Ok(Some(Text::copy(alloc, name.bytes())?)),
        None => Ok(None),
    }
}

// What a module has of the top's header.
#[derive(Drop)]
struct Head {
    ports: Items<TopPort>,
    clock: Option<Text>,
    asyncs: Items<Async>,
}

fn copied_head(alloc: Global, flat: &Flat) -> Result<Head, AllocError>
    ensures { IfOk result (λ r. r ≡ record { ports = flat.now.ports; clock = flat.now.clock; asyncs = flat.now.asyncs }) }
{
    let ports = copied_ports(alloc, flat.ports.as_slice());
    let clock = copied_clock(alloc, &flat.clock);
    let ends = both(clock, copied_asyncs(alloc, flat.asyncs.as_slice()));
    let (ports, (clock, asyncs)) = both(ports, ends)?;
    Ok(Head {
        ports,
        clock,
        asyncs,
    })
}

/// The module whose registers are the words of its memories.
pub fn spread_flat(alloc: Global, flat: &Flat) -> Result<Flat, AllocError>
    requires { IsReady flat.now }
    ensures { IfOk result (λ r. r ≡ spread_flat flat.now) }
{
    let rest = at_rest(alloc, flat)?;
    let spreader = Spreader { alloc, rest: &rest };
    spreader.flat(flat)
}

/// The module whose registers are the words of its memories: it has the module's cycles and runs. Refused for the first
/// fault of its memories that stands, or where memory runs out. Faults are told in this order: a word whose name is
/// declared already; a memory used without exactly one plain index; an index that names a memory; a memory that is
/// signed, that nothing assigns, or that is assigned otherwise than by `<=` in a clocked block; more than 1,024 indexed
/// uses.
pub fn spread(alloc: Global, flat: &Flat) -> Result<Flat, MemFault>
    requires can { CanSpread flat.now }
    requires ready { IsReady flat.now }
    ensures spread { IfOk result (λ r. r ≡ spread_flat flat.now) }
    ensures runs { IfOk result (λ r. KeepsRuns flat.now) }
    ensures words { IfOk result (λ r. DeclaresWords flat.now) }
    ensures none { IfOk result (λ r. IsFaultless flat.now) }
    ensures fault { IfErr result (λ e. (e ≡ m.Memory) ⊎ IsFirstFault flat.now e) }
{
    if let Some(fault) = fault_of(alloc, flat)? {
        return Err(fault);
    }
    spread_keeps_runs();
    spread_declares_words();
    Ok(spread_flat(alloc, flat)?)
}
