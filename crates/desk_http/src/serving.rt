// Connections served one after another.
ghost use Rattle.std.specs.Prelude.{◌≡◌, ◌<◌, ◌≤◌, IfErr, IfOk, OnErr, OnOk};
ghost use Rattle.outside.specs.Faults.{Rose};
ghost use Rattle.proof_store.specs.Provers.{limits_of};
ghost use Rattle.desk_core.specs.Checkers.{IsSame};
ghost use Rattle.desk_http.specs.Serving.{Keeps, ServesOne, ServesQuota, StopsWithin, counted, line, state_of};

use desk_core::Checker;
use desk_http_connection::{Incoming, ServeFault, Served, receive, reply_to};
use helper_box::Helper;
use outside::{Gate, Keeper, Port};
use std::thread::Threads;

/// Takes one connection, reads one request, carries out its command at the desk that the checker's keeper holds, writes
/// one reply and finishes. Where memory runs out once the request began, the reply is the fixed text with the status
/// 507.
///
/// It is refused with `Next` where the port gave no next connection: its count of faults for that rose in this call, or
/// stands at its last value. It is refused with `Memory` where memory runs out before the request began.
pub fn serve_one<R: Threads + Sync, P: Port, K: Keeper, H: Helper, G: Gate + Sync>(
    port: &mut P,
    checker: &mut Checker<'_, '_, '_, '_, R, K, H, G>,
) -> Result<Served, ServeFault>
    ensures serves { ServesOne (limits_of checker.old.prover.settings) (line (P.wire port.old) (P.faults port.old))
        (state_of K.tables K.faults H.asked checker.old)
        result (line (P.wire port.new) (P.faults port.new)) (state_of K.tables K.faults H.asked checker.new) }
    ensures keeps { Keeps (state_of K.tables K.faults H.asked checker.old)
        (state_of K.tables K.faults H.asked checker.new) }
    ensures next_ok { OnOk result (P.next_faults port.new ≡ P.next_faults port.old) }
    ensures next_err { OnErr result (Rose (P.next_faults port.old) (P.next_faults port.new)) }
    ensures same { IsSame checker.old checker.new }
{
    let alloc = checker.prover.alloc;
    match receive(alloc, port)? {
        Incoming::Done(served) => Ok(served),
        Incoming::Act(command) => {
            let outcome = checker.act(&command);
            Ok(reply_to(alloc, port, &outcome))
        }
    }
}

/// How many connections are served, and whether those alone count that got a reply.
#[derive(Clone, Copy, Debug)]
pub struct Quota {
    pub count: u32,
    pub replied: bool,
}

impl Quota {
    // The number of connections that count, with one more that came to this.
    fn counted(&self, served: Served, so_far: u32) -> u32
        requires { so_far < self.now.count }
        ensures value { result ≡ counted self.now.replied served so_far }
        ensures most { result ≤ self.now.count }
    {
        if self.replied && !matches!(served, Served::Replied { .. }) {
            return so_far;
        }
        so_far + 1
    }
}

/// Serves connections, one after another, by the desk that the keeper holds, until so many count, and says how many:
/// each finds the tables and the book as the one before left them. A connection that the peer broke off or that failed
/// counts as any other, or not at all, as the quota says; where it doesn't, 2^64 - 1 connections are enough in any
/// case. Whoever begins with a desk whose reports are of its texts ends with one.
///
/// It stops at the first connection that can't be taken, and is refused as `serve_one` is.
pub fn serve<R: Threads + Sync, P: Port, K: Keeper, H: Helper, G: Gate + Sync>(
    quota: Quota,
    port: &mut P,
    checker: &mut Checker<'_, '_, '_, '_, R, K, H, G>,
) -> Result<u32, ServeFault>
    ensures ok { IfOk result (λ n. ServesQuota (limits_of checker.old.prover.settings) quota
        (line (P.wire port.old) (P.faults port.old))
        (state_of K.tables K.faults H.asked checker.old) n (line (P.wire port.new) (P.faults port.new)) (state_of K.tables K.faults H.asked checker.new)) }
    ensures err { IfErr result (λ fault. StopsWithin (limits_of checker.old.prover.settings) quota
        (line (P.wire port.old) (P.faults port.old))
        (state_of K.tables K.faults H.asked checker.old) fault (line (P.wire port.new) (P.faults port.new)) (state_of K.tables K.faults H.asked checker.new)) }
    ensures keeps { Keeps (state_of K.tables K.faults H.asked checker.old)
        (state_of K.tables K.faults H.asked checker.new) }
    ensures next_ok { OnOk result (P.next_faults port.new ≡ P.next_faults port.old) }
    ensures next_err { OnErr result (Rose (P.next_faults port.old) (P.next_faults port.new)) }
    ensures same { IsSame checker.old checker.new }
{
    let mut served = 0;
    for _taken in 0..u64::MAX {
        if served == quota.count {
            return Ok(served);
        }
        let one = serve_one(port, checker)?;
        served = quota.counted(one, served);
    }
    Ok(served)
}
