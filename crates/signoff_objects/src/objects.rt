// The real objects that the top call works on.
ghost use Rattle.std.specs.Prelude.{◌≡◌, ◌⊎◌, None, IfOk, map, string_bytes, []};
ghost use Rattle.signoff_words.specs.Commands.{command_of};

use crate::progress::{Progress, Screen, Told};
use desk_core_reports::Book;
use helper_box::{Helper, Sampler, Table, Units};
use keeper_sql::SqlKeeper;
use outside::{Console, FileShelf, Keeper, MemKeeper, Sink, TcpPort, Text};
use signoff_call::signoff;
use signoff_words::{Wants, wants};
use std::alloc::{AllocError, Global};
use std::net::{Ipv4Addr, SocketAddr, TcpListener};
use std::thread::Threads;
use std::time::Duration;

// What a call runs on, beside its keeper, its port and its book: threads, the words, and the gate of its workers.
#[derive(Clone, Copy)]
struct Call<'a, R: Threads + Sync> {
    threads: &'a R,
    words: &'a [String],
    gate: &'a Progress,
}

/// Answers words over real objects: the status of the top call. The proofs and the desk are kept in the file that the
/// words name, and in memory where they name none; connections come from this machine alone. Threads are started by a
/// handle of their own. The book takes the lines that were decided. Where it is to be told, standard error says how
/// many lines the workers were handed so far, each time that one is. It is 8, with the line `keeper`, where a desk that
/// is to be served can't be opened, and 70 where there is no memory for the objects.
pub fn answer<R: Threads + Sync>(
    threads: &R,
    rt: &HostRuntime,
    words: &[String],
    told: Told,
    book: &mut Book,
) -> u8
    requires { book.old.lines.items ≡ [] }
    ensures no_command { command_of (map string_bytes words.now) ≡ None → (result ≡ 2) ⊎ (result ≡ 70) }
{
    let gate = Progress::new(rt, told);
    let call = Call {
        threads,
        words,
        gate: &gate,
    };
    match ended(&call, rt, book) {
        Ok(status) => status,
        Err(AllocError) => 70,
    }
}

// The status of the top call, unless there is no memory for the objects.
fn ended<R: Threads + Sync>(
    call: &Call<'_, R>,
    rt: &HostRuntime,
    book: &mut Book,
) -> Result<u8, AllocError>
    requires { book.old.lines.items ≡ [] }
    ensures { IfOk result (λ status. command_of (map string_bytes call.now.words.now) ≡ None → (status ≡ 2) ⊎
        (status ≡ 70)) }
{
    let alloc = rt.alloc();
    let Wants {
        store,
        port,
        timeout,
    } = wants(alloc, call.words)?;
    let serves = port.is_some();
    let limit = Duration::from_secs(u64::from(timeout));
    let mut port = TcpPort::new(rt.clone()?, listener(rt, port), limit);
    match store {
        Some(path) => {
            let mut keeper = opened(rt, &path)?;
            if serves && !keeper.is_open() {
                return no_desk(rt);
            }
            over(call, &mut keeper, &mut port, book)
        }
        None => {
            let mut keeper = MemKeeper::new(alloc, Vec::new(alloc));
            over(call, &mut keeper, &mut port, book)
        }
    }
}

// Connections come from this machine alone.
fn listener(rt: &HostRuntime, port: Option<u16>) -> Option<TcpListener> {
    let at = SocketAddr::from((Ipv4Addr::LOCALHOST, port?));
    TcpListener::bind(rt, at).ok()
}

// A desk that can't be opened would tell each peer so, for as long as it is served.
fn no_desk(rt: &HostRuntime) -> Result<u8, AllocError> {
    // The status stays where the line isn't taken.
    let _ = Console::new(rt.clone()?).put(b"keeper\n");
    Ok(8)
}

// A word is text, so its bytes are.
fn opened(rt: &HostRuntime, path: &Text) -> Result<SqlKeeper, AllocError> {
    SqlKeeper::over(rt, str::from_utf8(path.bytes()).unwrap_or(""))
}

fn over<R: Threads + Sync, K: Keeper>(
    call: &Call<'_, R>,
    keeper: &mut K,
    port: &mut TcpPort<HostRuntime>,
    book: &mut Book,
) -> Result<u8, AllocError>
    requires { book.old.lines.items ≡ [] }
    ensures { IfOk result (λ status. command_of (map string_bytes call.now.words.now) ≡ None → (status ≡ 2) ⊎
        (status ≡ 70)) }
{
    let rt = call.gate.runtime();
    let alloc = rt.alloc();
    let mut helpers: Vec<Box<dyn Helper>> = Vec::new(alloc);
    helpers.push(Box::new(alloc, Sampler::new(1, 1_000))?)?;
    helpers.push(Box::new(alloc, Table::new())?)?;
    helpers.push(Box::new(alloc, Units::new())?)?;
    let mut screen = Screen {
        out: Console::new(rt.clone()?),
        progress: call.gate,
    };
    Ok(signoff(
        call.threads,
        alloc,
        call.words,
        &mut FileShelf::new(rt.clone()?),
        &mut screen,
        keeper,
        port,
        call.gate,
        helpers,
        book,
    ))
}
