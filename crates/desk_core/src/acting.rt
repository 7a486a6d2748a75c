// Commands carried out.
ghost use Rattle.std.specs.Prelude.{◌≡◌, Err, IfOk, IfSome, OnErr};
ghost use Rattle.proof_store.specs.Provers.{Proceeds, counts, kept_by};
ghost use Rattle.proof_store.specs.Stored.{Told};
ghost use Rattle.desk_core.specs.Checkers.{Does, IsSame, Leads, state};
ghost use Rattle.desk_core.specs.Quiet.{LeavesOfBlock, OfBlock};
ghost use Rattle.desk_core.specs.States.{IsDesk};
ghost use Rattle.desk_core.specs.Steps.{ChecksBlock, IsLeft, Leaves};

use crate::blocks::{put_module, put_set, refused_by, report_of_block, trace_of_block};
use crate::checker::Checker;
use crate::listing::{list_blocks, list_signs};
use crate::signing::sign_off;
use desk_core_commands::{Answer, Command, DeskFault, Which};
use helper_box::Helper;
use outside::{Block, Gate, Keeper};
use proof_store::StoreFault;
use std::thread::Threads;

impl<'a, 'k, 'h, 'b, R: Threads + Sync, K: Keeper, H: Helper, G: Gate + Sync> Checker<
    'a,
    'k,
    'h,
    'b,
    R,
    K,
    H,
    G,
> {
    // Checks the two texts of a block, and puts their report.
    #[tactic(auto, using(crate::proofs::Checked::none_falls))]
    fn check_texts(&mut self, name: &[u8], block: Block) -> Result<Answer, StoreFault>
        ensures step { IfOk result (λ answer. Leads
            (OfBlock name.now block (ChecksBlock self.old.prover.settings.budget self.old.prover.settings.workers name.now) answer)
            (state K.tables H.asked self.old) (state K.tables H.asked self.new)) }
        ensures left { OnErr result (Told (LeavesOfBlock name.now block) (kept_by K.tables self.old.prover)
            (kept_by K.tables self.new.prover)) }
        ensures book { OnErr result (IsLeft self.old.book.now self.new.book.now) }
        ensures proceeds { Proceeds (result ≡ Err StoreFault.Keeper) (counts K.faults H.asked self.old.prover)
            (counts K.faults H.asked self.new.prover) }
        ensures same { IsSame self.old self.new }
    {
        let Some(module) = &block.module else {
            return Ok(Answer::NoText);
        };
        let Some(set) = &block.set else {
            return Ok(Answer::NoText);
        };
        match self.check(module.bytes(), set.bytes(), &Which::All) {
            Ok(report) => self.put_checked(name, block, &report),
            Err(fault) => refused_by(self.prover.alloc, fault),
        }
    }

    // Checks a block.
    #[tactic(auto, using(crate::proofs::Checked::none_falls))]
    fn check_block(&mut self, name: &[u8]) -> Result<Answer, StoreFault>
        ensures step { IfOk result (λ answer. Leads
            (ChecksBlock self.old.prover.settings.budget self.old.prover.settings.workers name.now answer)
            (state K.tables H.asked self.old) (state K.tables H.asked self.new)) }
        ensures left { OnErr result (Told (Leaves (Command.Check name.now)) (kept_by K.tables self.old.prover)
            (kept_by K.tables self.new.prover)) }
        ensures book { OnErr result (IsLeft self.old.book.now self.new.book.now) }
        ensures proceeds { Proceeds (result ≡ Err StoreFault.Keeper) (counts K.faults H.asked self.old.prover)
            (counts K.faults H.asked self.new.prover) }
        ensures same { IsSame self.old self.new }
    {
        let alloc = self.prover.alloc;
        match self.prover.keeper.block(alloc, name)? {
            None => Ok(Answer::NoBlock),
            Some(block) => self.check_texts(name, block),
        }
    }

    // Carries out a command.
    #[tactic(auto, using(crate::proofs::Checked::none_falls))]
    fn carry_out(&mut self, command: &Command) -> Result<Answer, StoreFault>
        ensures step { IfOk result (λ answer. Does command.now answer (state K.tables H.asked self.old)
            (state K.tables H.asked self.new)) }
        ensures left { OnErr result (Told (Leaves command.now) (kept_by K.tables self.old.prover)
            (kept_by K.tables self.new.prover)) }
        ensures book { OnErr result (IsLeft self.old.book.now self.new.book.now) }
        ensures proceeds { Proceeds (result ≡ Err StoreFault.Keeper) (counts K.faults H.asked self.old.prover)
            (counts K.faults H.asked self.new.prover) }
        ensures same { IsSame self.old self.new }
    {
        let alloc = self.prover.alloc;
        match command {
            Command::PutModule { name, text } => put_module(
                alloc,
                self.prover.keeper,
                name.bytes(),
                text.bytes(),
            ),
            Command::PutSet { name, text } => put_set(
                alloc,
                self.prover.keeper,
                name.bytes(),
                text.bytes(),
            ),
            Command::Check { name } => self.check_block(name.bytes()),
            Command::GetReport { name } => report_of_block(alloc, self.prover.keeper, name.bytes()),
            Command::GetTrace { name, line } => trace_of_block(
                alloc,
                self.prover.keeper,
                name.bytes(),
                *line,
            ),
            Command::SignOff { name } => sign_off(alloc, self.prover.keeper, name.bytes()),
            Command::Blocks => list_blocks(alloc, self.prover.keeper),
            Command::Signoffs => list_signs(alloc, self.prover.keeper),
        }
    }

    /// Carries out a command at the desk, which a keeper holds: blocks by their names, proofs, and sign-offs.
    ///
    /// A text is put if it is read, at most 1,048,576 bytes long; one that differs from the block's takes its report
    /// and traces away. A check empties the book, decides all lines of the block's two texts over the keeper's proofs,
    /// and puts the report and the traces of its refuted lines; the book then has its lines. A block is signed off
    /// where its report's last line is `signed off`; the same two texts of a block have one number, also when they are
    /// signed again. Whoever begins with a desk whose reports are of its texts ends with one: so a number means that
    /// the block's texts were signed off.
    ///
    /// It is refused with `Keeper` only where the keeper's count of faults rose in this call, or stands at its last
    /// value, and with `Memory` where memory runs out. Then blocks and sign-offs are as before, proofs that differ are
    /// of obligations of the checked texts, and the book is empty or as before.
    pub fn act(&mut self, command: &Command) -> Result<Answer, DeskFault>
        ensures step { IfOk result (λ answer. Does command.now answer (state K.tables H.asked self.old)
            (state K.tables H.asked self.new)) }
        ensures left { OnErr result (Told (Leaves command.now) (kept_by K.tables self.old.prover)
            (kept_by K.tables self.new.prover)) }
        ensures book { OnErr result (IsLeft self.old.book.now self.new.book.now) }
        ensures desk { IfSome (kept_by K.tables self.old.prover) (λ t. IsDesk t →
            IfSome (kept_by K.tables self.new.prover) IsDesk) }
        ensures proceeds { Proceeds (result ≡ Err DeskFault.Keeper) (counts K.faults H.asked self.old.prover)
            (counts K.faults H.asked self.new.prover) }
        ensures same { IsSame self.old self.new }
    {
        match self.carry_out(command) {
            Ok(answer) => Ok(answer),
            Err(StoreFault::Keeper) => Err(DeskFault::Keeper),
            Err(StoreFault::Memory) => Err(DeskFault::Memory),
        }
    }
}
