// What is answered where the desk is served.
ghost use Rattle.std.specs.Prelude.{◌≡◌, ◌++◌, IfOk};
ghost use Rattle.std.specs.Fmt.{decimal};
ghost use Rattle.outside.specs.Faults.{Rose};
ghost use Rattle.signoff_words.specs.Commands.{IsServed};
ghost use Rattle.desk_http.specs.Serving.{line, state_of};
ghost use Rattle.signoff_call.specs.Run.{AnswersService, HasSame, LeavesServed, around, served_text};

use crate::answer::{Answer, done, refusal};
use desk_core::Checker;
use desk_http::{Quota, serve};
use desk_http_connection::ServeFault;
use helper_box::Helper;
use outside::{Gate, Keeper, Port, Text};
use proof_store::Settings;
use signoff_words::Service;
use std::alloc::{AllocError, Global};
use std::thread::Threads;

fn served_text(alloc: Global, count: u32) -> Result<Text, AllocError>
    ensures { IfOk result (λ text. text ≡ served_text count) }
{
    let mut text = b"served ".to_vec(alloc)?;
    text.extend_from_slice(count.to_string(alloc)?.as_bytes())?;
    text.extend_from_slice(b"\n")?;
    Ok(Text::new(text))
}

/// Serves connections, and says how many, or that there was no next one.
pub fn served<R: Threads + Sync, K: Keeper, P: Port, H: Helper, G: Gate + Sync>(
    checker: &mut Checker<'_, '_, '_, '_, R, K, H, G>,
    port: &mut P,
    service: &Service,
) -> Result<Answer, AllocError>
    requires { IsServed service.now }
    ensures answer { IfOk result (AnswersService service.now
        (around (state_of K.tables K.faults H.asked checker.old) (line (P.wire port.old) (P.faults port.old)))
        (around (state_of K.tables K.faults H.asked checker.new) (line (P.wire port.new) (P.faults port.new)))) }
    ensures left { LeavesServed service.now (around (state_of K.tables K.faults H.asked checker.old)
        (line (P.wire port.old) (P.faults port.old)))
        (around (state_of K.tables K.faults H.asked checker.new) (line (P.wire port.new) (P.faults port.new))) }
    ensures port { IfOk result (λ a. a.status ≡ 9 → Rose (P.next_faults port.old) (P.next_faults port.new)) }
    ensures keeper { IfOk result (λ a. a.status ≡ 8 →
        Rose (K.faults checker.old.prover.keeper.now) (K.faults checker.new.prover.keeper.now)) }
    ensures same { HasSame checker.old checker.new }
{
    let alloc = checker.prover.alloc;
    checker.prover.settings = Settings {
        budget: service.budget,
        workers: service.workers,
    };
    let quota = Quota {
        count: service.count,
        replied: service.replied,
    };
    match serve(quota, port, checker) {
        Ok(served) => Ok(done(served_text(alloc, served)?)),
        Err(ServeFault::Next) => refusal(alloc, 9, b"port", b""),
        Err(ServeFault::Memory) => Err(AllocError),
    }
}
