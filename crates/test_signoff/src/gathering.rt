// Workers that are at work at once.
use crate::examples::{COUNTER, COUNTER_SET};
use crate::running::run;
use outside::Gate;
use std::sync::atomic::AtomicU64;
use std::sync::atomic::Ordering::SeqCst;
use std::test::Fail;
use std::thread::yield_now;

// How often a job looks whether another one has come.
const TURNS: u32 = 100_000_000;

// Each job waits, a bounded number of turns, until two have come. With one worker the first job waits in vain.
#[derive(Drop)]
struct Gathering {
    come: AtomicU64,
    met: AtomicU64,
}

impl Gate for Gathering {
    fn enter(&self, _job: u64) {
        self.come.fetch_add(1, SeqCst);
        for _ in 0..TURNS {
            if self.come.load(SeqCst) >= 2 {
                self.met.fetch_add(1, SeqCst);
                break;
            }
            yield_now();
        }
    }
}

#[test]
fn two_lines_are_decided_at_once(rt: HostRuntime) -> Result<(), Fail> {
    let gathering = Gathering {
        come: AtomicU64::new(0),
        met: AtomicU64::new(0),
    };
    let words = ["ops", "M", "S", "--workers", "2"];
    let status = run(&rt, &words, COUNTER, COUNTER_SET, &gathering)?;
    assert_eq!(rt; status, 0);
    assert_eq!(rt; gathering.come.load(SeqCst), 3);
    assert_eq!(rt; gathering.met.load(SeqCst), 3);
    Ok(())
}
