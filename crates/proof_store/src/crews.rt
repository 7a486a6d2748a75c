// How workers are set to many obligations.
use job_pool::Crew;
use std::thread::Threads;

/// As many workers as there are jobs, at least one and no more than these.
pub(crate) fn fewer<'a, R: Threads + Sync>(crew: &Crew<'a, R>, jobs: usize) -> Crew<'a, R> {
    Crew {
        rt: crew.rt,
        alloc: crew.alloc,
        workers: u32::try_from(jobs)
            .unwrap_or(u32::MAX)
            .clamp(1, crew.workers),
    }
}
