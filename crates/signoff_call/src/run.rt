// The top call.
ghost use Rattle.std.specs.Prelude.{◌≡◌, ℕ, List, ◌⊎◌, ◌++◌, [], None, Some, IfOk, map, string_bytes};
ghost use Rattle.std.specs.Io.KnownBytes.{Appends};
ghost use Rattle.outside.specs.Faults.{Rose};
ghost use Rattle.signoff_words.specs.Commands.{IsBounded, HasBounds, command_of};
ghost use Rattle.proof_store.specs.Provers.{kept_by};
ghost use Rattle.desk_http.specs.Serving.{line, state, state_of};
ghost use Rattle.signoff_call.specs.Run.{Answers, AnswersJob, Delivers, HasSame, LeavesRead, LeavesRows, Reads, around, third_name};
ghost use Rattle.signoff_call.specs.Tasks.{stores_between};
ghost use Rattle.signoff_call.specs.declared.answer.Answer.{Answer};
ghost use Rattle.signoff_call.specs.declared.files.Read.{Read};

use crate::answer::{Answer, refusal};
use crate::files::{Read, read_all};
use crate::lines::put_lines;
use crate::moved::moved;
use crate::serving::served;
use crate::texts::{demonstrated, judged};
use desk_core::{Checker, Prover, Settings};
use desk_core_reports::Book;
use helper_box::Helper;
use outside::{Gate, Keeper, OutFault, Port, Shelf, Sink};
use signoff_words::{Command, Job, Task, command_in};
use std::alloc::{AllocError, Global};
use std::thread::Threads;

/// The top call: answers the words, and puts the answer; the lines that it decides stand in the book. The commands are
/// `ops M S`, which decides the lines on the design of the module in the file M with the set in the file S, `check M
/// S`, which decides all lines, `trace M S NAME`, which decides the line of this name and puts its counterexample where
/// it is refuted, `least M S NAME`, which puts the least one, `wave M S NAME`, which puts it as a waveform, `meet M S`
/// and `meet M S NAME`, which say what can be met, `machine M S`, which decides all lines and puts the operations of a
/// set that is signed off as a machine, with the option `--dot` as a graph, and `walk M S ROWS`, which puts the path of
/// the run from reset whose registers are 0 at first and whose inputs the file ROWS gives, each with the options
/// `--budget B`, `--workers W`, `--store FILE` and `--progress`; `lines M S`, which puts the names of all lines and
/// decides none, `clauses M S NAME`, which puts the clauses of the line of this name, `accept M S NAME PROOF --store
/// FILE`, which keeps the derivation of them in the file PROOF and then decides the line, `demo N`, which checks the
/// generated texts of N stages, `serve PORT COUNT FILE`, which serves the desk that FILE holds to COUNT connections at
/// PORT, and `migrate FILE`, which puts the proofs that FILE keeps again as records of the newest form. Lines whose
/// proofs the keeper holds aren't solved again, and new proofs are put to it; the helpers are asked before the workers.
/// The status is
///
/// - 2 where the words are no command, or no line has the name, with the line `usage`;
/// - 6 where a file can't be read, with the line `read: ` and its name, the first in the order of the words;
/// - 3 where the module text is refused, `module: ` and the fault; 4 where the set's text is, `set: ` and the fault; 5
///   where the set doesn't fit the design, `bind: ` and the fault. The first stage that refuses is answered: the module
///   text is read, then the set's, then the modules are made a design;
/// - 11 where rows are refused or their run breaks a constraint, with the line `rows: ` and the fault or the cycle;
/// - 12 where a derivation isn't accepted or may not be kept, with the line `proof: ` and the fault;
/// - 8 where the keeper fails, with the line `keeper`; while the desk is served a peer is told so;
/// - 9 where the port has no next connection, with the line `port`;
/// - 7 where the sink refuses a report;
/// - 1 where a line is refuted, or for `meet` met by nothing, 10 where none is and one is spent, and 0 else, with the
///   report, or where all connections were served, with the line `served` and their number;
/// - 70 where memory runs out.
pub fn signoff<R: Threads + Sync, F: Shelf, S: Sink, K: Keeper, P: Port, H: Helper, G: Gate + Sync>(
    rt: &R,
    alloc: Global,
    words: &[String],
    shelf: &mut F,
    out: &mut S,
    keeper: &mut K,
    port: &mut P,
    gate: &G,
    helpers: Vec<H>,
    book: &mut Book,
) -> u8
    requires { book.old.lines.items ≡ [] }

    // 2 comes where the words are no command, unless memory runs out.
    ensures no_command { command_of (map string_bytes words.now) ≡ None → (result ≡ 2) ⊎ (result ≡ 70) }

    // 6, 7, 8 and 9 only where the shelf, the sink, the keeper or the port has failed in this call.
    ensures read_fault { result ≡ 6 → Rose (F.faults shelf.old) (F.faults shelf.new) }
    ensures sink_fault { result ≡ 7 → Rose (S.faults out.old) (S.faults out.new) }
    ensures keeper_fault { result ≡ 8 → Rose (K.faults keeper.old) (K.faults keeper.new) }
    ensures port_fault { result ≡ 9 → Rose (P.next_faults port.old) (P.next_faults port.new) }

    // Whatever the status, also 70, blocks and sign-offs are as before, or as connections left them; and each proof
    // that differs is one of an obligation of this call, under its text, or was moved.
    ensures left { (asked : List ℕ) × LeavesRows (F.files shelf.old) (command_of (map string_bytes words.now))
        (around (state (K.tables keeper.old) (K.faults keeper.old) (map H.asked helpers.items) book.old) (line (P.wire port.old) (P.faults port.old)))
        (around (state (K.tables keeper.new) (K.faults keeper.new) asked book.new) (line (P.wire port.new) (P.faults port.new))) }

    // All else: an answer to the words and to what was read, of which all or a prefix went out.
    ensures ran { ((result ≡ 70) × Appends (S.written out.old) (S.written out.new) [])
        ⊎ ((read : Read) × (answer : Answer) × (asked : List ℕ)
        × Reads (F.files shelf.old) (F.faults shelf.old) (F.faults shelf.new) (command_of (map string_bytes words.now)) read
        × Answers (command_of (map string_bytes words.now)) read
        (around (state (K.tables keeper.old) (K.faults keeper.old) (map H.asked helpers.items) book.old) (line (P.wire port.old) (P.faults port.old)))
        (around (state (K.tables keeper.new) (K.faults keeper.new) asked book.new) (line (P.wire port.new) (P.faults port.new))) answer
        × Delivers answer result (S.faults out.old) (S.faults out.new) (S.written out.old) (S.written out.new)) }
{
    let mut helpers = helpers;
    let prover = Prover {
        rt,
        alloc,
        settings: Settings {
            budget: 20_000,
            workers: 4,
        },
        keeper,
        helpers: &mut helpers,
        gate,
    };
    let mut checker = Checker { prover, book };
    match answered(&mut checker, words, shelf, port) {
        Ok(answer) => deliver(alloc, &answer, out),
        Err(AllocError) => 70,
    }
}

// The answer to words.
fn answered<R: Threads + Sync, F: Shelf, K: Keeper, P: Port, H: Helper, G: Gate + Sync>(
    checker: &mut Checker<'_, '_, '_, '_, R, K, H, G>,
    words: &[String],
    shelf: &mut F,
    port: &mut P,
) -> Result<Answer, AllocError>
    requires { checker.old.book.now.lines.items ≡ [] }
    ensures answer { IfOk result (λ a. (read : Read)
        × Reads (F.files shelf.old) (F.faults shelf.old) (F.faults shelf.new) (command_of (map string_bytes words.now)) read
        × Answers (command_of (map string_bytes words.now)) read
        (around (state_of K.tables K.faults H.asked checker.old) (line (P.wire port.old) (P.faults port.old)))
        (around (state_of K.tables K.faults H.asked checker.new) (line (P.wire port.new) (P.faults port.new))) a) }
    ensures left { LeavesRows (F.files shelf.old) (command_of (map string_bytes words.now))
        (around (state_of K.tables K.faults H.asked checker.old) (line (P.wire port.old) (P.faults port.old)))
        (around (state_of K.tables K.faults H.asked checker.new) (line (P.wire port.new) (P.faults port.new))) }
    ensures keeper { IfOk result (λ a. a.status ≡ 8 →
        Rose (K.faults checker.old.prover.keeper.now) (K.faults checker.new.prover.keeper.now)) }
    ensures port { IfOk result (λ a. a.status ≡ 9 → Rose (P.next_faults port.old) (P.next_faults port.new)) }
    ensures same { HasSame checker.old checker.new }
{
    let alloc = checker.prover.alloc;
    match command_in(alloc, words)? {
        None => refusal(alloc, 2, b"usage", b""),
        Some(Command::Texts(job)) => {
            let read = read_all(alloc, shelf, &job)?;
            job_answer(checker, &job, &read)
        }
        Some(Command::Demo(stages)) => demonstrated(checker, stages),
        Some(Command::Serve(service)) => served(checker, port, &service),
        Some(Command::Migrate(_)) => moved(alloc, checker.prover.keeper, checker.book),
    }
}

// The name of the third file, where there is one.
fn third_name(task: &Task) -> &[u8]
    ensures { result.now ≡ third_name task.now }
{
    match task {
        Task::Walk(rows) => rows.bytes(),
        Task::Accept(given) => given.proof.bytes(),
        Task::Decide(_)
        | Task::Wave(_)
        | Task::Meet(_)
        | Task::Machine(_)
        | Task::Lines
        | Task::Clauses(_) => b"",
    }
}

fn job_answer<R: Threads + Sync, K: Keeper, H: Helper, G: Gate + Sync>(
    checker: &mut Checker<'_, '_, '_, '_, R, K, H, G>,
    job: &Job,
    read: &Read,
) -> Result<Answer, AllocError>
    requires bounds { HasBounds job.now }
    requires empty { checker.old.book.now.lines.items ≡ [] }
    ensures answer { IfOk result (AnswersJob job.now read.now checker.new.book.now
        (stores_between K.tables H.asked checker.old checker.new)) }
    ensures left { LeavesRead job.now read.now (kept_by K.tables checker.old.prover)
        (kept_by K.tables checker.new.prover) }
    ensures keeper { IfOk result (λ a. a.status ≡ 8 →
        Rose (K.faults checker.old.prover.keeper.now) (K.faults checker.new.prover.keeper.now)) }
    ensures same { HasSame checker.old checker.new }
{
    let alloc = checker.prover.alloc;
    match read {
        Read::NoModule => refusal(alloc, 6, b"read: ", job.module.bytes()),
        Read::NoSet => refusal(alloc, 6, b"read: ", job.set.bytes()),
        Read::NoThird => refusal(alloc, 6, b"read: ", third_name(&job.task)),
        Read::All(texts) => judged(checker, job, texts),
    }
}

// Puts the answer line by line, and says the status.
fn deliver<S: Sink>(alloc: Global, answer: &Answer, out: &mut S) -> u8
    ensures { Delivers answer.now result (S.faults out.old) (S.faults out.new) (S.written out.old) (S.written out.new) }
{
    match put_lines(alloc, answer.bytes.bytes(), out) {
        Ok(()) => answer.status,
        Err(OutFault::Memory) => 70,
        Err(OutFault::Failed) => { if answer.reports { 7 } else { answer.status } }
    }
}
