// Workers over the elements of a list.
ghost use Rattle.std.specs.Prelude.{◌≡◌, ◌+◌, ◌^◌, ◌<◌, ◌≤◌, length, IfOk};
ghost use Rattle.std.specs.List.{AllZip, range_with_len};

use crate::order::{below, ordered};
use crate::task::Task;
use crate::tickets::Tickets;
use crate::work::{Shift, work_all};
use std::alloc::{AllocError, Global};
use std::thread::Threads;

/// Workers in threads of a runtime.
#[derive(Drop)]
pub struct Crew<'a, R> {
    pub rt: &'a R,
    pub alloc: Global,
    /// How many they are, 1 to 64. One works in the thread that calls it.
    pub workers: u32,
    ghost some: { 0 < workers },
    ghost few: { workers ≤ 64 },
}

/// What a run over a list gave.
#[derive(Debug, Drop)]
pub struct Ran<X> {
    /// How each element ended, in the order of the list.
    pub ends: Vec<X>,
    /// The numbers that the workers drew, in ascending order. Each worker draws one past the last element.
    pub draws: Vec<u64>,
}

impl<'a, R: Threads + Sync> Crew<'a, R> {
    /// Does a task once with each element. Each worker draws numbers of elements from one shared word until its number
    /// is past the last one, so that a worker that is done with a short one takes the next. Refused where a worker, or
    /// what is made of their ends, wants memory; each worker is joined first.
    pub fn run<T: Sync, X: Send + Drop, J: Task<T, X> + Sync>(
        &self,
        elements: &[T],
        task: &J,
    ) -> Result<Ran<X>, AllocError>
        requires jobs { length elements.now < 2 ^ 32 }
        ensures ends { IfOk result (λ ran. AllZip (J.ends task.now) elements.now ran.ends.items) }
        ensures draws { IfOk result (λ ran. ran.draws.items ≡ range_with_len 0
            (length elements.now + self.now.workers)) }
    {
        let each = elements.len() as u64 + 1;
        let (tickets, seat) = Tickets::new(self.alloc, self.workers as u64 * each)?;
        let shift = Shift {
            alloc: self.alloc,
            tickets: &tickets,
            elements,
            task,
        };
        let (seat, done) = work_all(self.rt, &shift, seat, self.workers);
        let count = tickets.close(seat);
        let ends = ordered(self.alloc, done?)?;
        let draws = below(self.alloc, count)?;
        Ok(Ran { ends, draws })
    }
}
