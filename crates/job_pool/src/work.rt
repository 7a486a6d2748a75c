// What one worker does, and workers in threads of their own.
ghost use Rattle.std.specs.Prelude.{◌≡◌, ℕ, ◌+◌, ◌*◌, ◌^◌, ◌<◌, ◌≤◌, [], length, IfOk, IsOkAnd, OnOk, ◌++◌};
ghost use Rattle.std.specs.Thread.{IsSend, IsSync};
ghost use Rattle.job_pool.specs.Jobs.{Adds, AreDone, IsReady};

use crate::task::Task;
use crate::tickets::{Seat, Tickets};
use std::alloc::{AllocError, Global};
use std::thread::{Threads, join};

/// The number of a job, and how it ended.
#[derive(Drop)]
pub struct Done<X> {
    pub number: u64,
    pub end: X,
}

/// What the workers of a run share.
#[derive(Drop)]
pub(crate) struct Shift<'a, T, J> {
    pub alloc: Global,
    pub tickets: &'a Tickets,
    pub elements: &'a [T],
    pub task: &'a J,
}

// Does the job of this number.
fn add_job<T, X: Drop, J: Task<T, X>>(
    shift: &Shift<'_, T, J>,
    done: &mut Vec<Done<X>>,
    number: u64,
) -> Result<(), AllocError>
    requires number { number < length shift.now.elements.now }
    ensures { OnOk result (Adds (J.ends shift.now.task.now) shift.now.elements.now number done.old.items done.new.items) }
{
    let end = shift.task.end(number, &shift.elements[number as usize])?;
    done.push(Done { number, end })?;
    Ok(())
}

// Draws numbers until one is past the last job, and does the job of each.
fn work<T, X: Drop, J: Task<T, X>>(
    shift: &Shift<'_, T, J>,
    mut seat: Seat,
) -> (Seat, Result<Vec<Done<X>>, AllocError>)
    requires jobs { length shift.now.elements.now < 2 ^ 32 }
    requires ready { IsReady shift.now.tickets.now (length shift.now.elements.now) 1 seat }
    ensures seat { (result.0.word ≡ seat.word) × (length result.0.numbers + result.0.allowance ≡ seat.allowance) }
    ensures done { IfOk result.1 (λ v. AreDone
        (J.ends shift.now.task.now) shift.now.elements.now 1 result.0.numbers v.items) }
{
    let mut done = Vec::new(shift.alloc);
    'jobs: loop {
        let number = shift.tickets.draw(&mut seat);
        if number >= shift.elements.len() as u64 {
            return (seat, Ok(done));
        }
        if let Err(refused) = add_job(shift, &mut done, number) {
            return (seat, Err(refused));
        }
    }
}

// What both brought back.
fn both<X: Drop>(
    mine: Result<Vec<Done<X>>, AllocError>,
    theirs: Result<Vec<Done<X>>, AllocError>,
) -> Result<Vec<Done<X>>, AllocError>
    ensures { IfOk result (λ v. IsOkAnd mine (λ m. IsOkAnd theirs (λ t. v.items ≡ m.items ++ t.items))) }
{
    let mut all = mine?;
    let mut more = theirs?;
    all.append(&mut more)?;
    Ok(all)
}

/// As many workers, in threads of their own, each drawing until its number is past the last job. One worker works in
/// this thread.
pub(crate) fn work_all<R: Threads + Sync, T: Sync, X: Send + Drop, J: Task<T, X> + Sync>(
    rt: &R,
    shift: &Shift<'_, T, J>,
    mut seat: Seat,
    workers: u32,
) -> (Seat, Result<Vec<Done<X>>, AllocError>)
    requires jobs { length shift.now.elements.now < 2 ^ 32 }
    requires workers { (0 < workers) × (workers ≤ 64) }
    requires ready { IsReady shift.now.tickets.now (length shift.now.elements.now) workers seat }
    ensures seat { (result.0.word ≡ seat.word) × (length result.0.numbers + result.0.allowance ≡ seat.allowance) }
    ensures done { IfOk result.1 (λ v. AreDone
        (J.ends shift.now.task.now) shift.now.elements.now workers result.0.numbers v.items) }
{
    if workers == 1 {
        return work(shift, seat);
    }
    let rest = workers - 1;
    let other = shift
        .tickets
        .split(&mut seat, shift.elements.len() as u64 + 1);
    // The first call is made in a new thread, so that all threads are started from this one: those that a new thread
    // starts are often put onto its own processor.
    let ((other, theirs), (mut seat, mine)) = join(
        rt,
        || -> (Seat, Result<Vec<Done<X>>, AllocError>)
            requires { IsSync T.row × IsSend X.row × IsSync J.row × (length shift.now.elements.now < 2 ^ 32)
                × IsReady shift.now.tickets.now (length shift.now.elements.now) 1 other }
            ensures seat { (result.0.word ≡ other.word) ×
                (length result.0.numbers + result.0.allowance ≡ other.allowance) }
            ensures done { IfOk result.1 (λ v. AreDone
                (J.ends shift.entry.now.task.now) shift.entry.now.elements.now 1 result.0.numbers v.items) }
        { work(shift, other) },
        || -> (Seat, Result<Vec<Done<X>>, AllocError>)
            requires { IsSync R.row × IsSync T.row × IsSend X.row × IsSync J.row ×
                (length shift.now.elements.now < 2 ^ 32)
                × (0 < rest) × (rest ≤ 64) × IsReady shift.now.tickets.now (length shift.now.elements.now) rest seat }
            ensures seat { (result.0.word ≡ seat.word) ×
                (length result.0.numbers + result.0.allowance ≡ seat.allowance) }
            ensures done { IfOk result.1 (λ v. AreDone
                (J.ends shift.entry.now.task.now) shift.entry.now.elements.now rest result.0.numbers v.items) }
        { work_all(rt, shift, seat, rest) },
    );
    shift.tickets.join(&mut seat, other);
    (seat, both(mine, theirs))
}
