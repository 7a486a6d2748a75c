use job_pool::{Crew, Tickets, run_jobs};
use outside::Gate;
use std::alloc::{AllocError, Global};
use std::sync::atomic::Ordering::SeqCst;
use std::sync::atomic::{AtomicBool, AtomicU64};
use std::test::Fail;
use std::thread::yield_now;
use word_core::Word;
use word_dag::{Node, Ob};

const TURNS: u64 = 100_000_000;

// An obligation whose root is this constant.
fn constant(alloc: Global, one: bool) -> Result<Ob, AllocError> {
    let word = if one {
        Word::new(1, 1)
    } else {
        Word::new(1, 0)
    };
    let mut nodes = Vec::new(alloc);
    nodes.push(Node::Const(word))?;
    Ok(Ob::new(nodes, 0))
}

fn constants(alloc: Global, ones: &[bool]) -> Result<Vec<Ob>, AllocError> {
    let mut obs = Vec::new(alloc);
    for one in ones {
        obs.push(constant(alloc, *one)?)?;
    }
    Ok(obs)
}

// One job's side of a meeting: a flag, the count of entries, and whether the other's flag was seen.
#[derive(Drop)]
struct Side {
    flag: AtomicBool,
    entries: AtomicU64,
    saw: AtomicBool,
}

impl Side {
    fn new() -> Side {
        Side {
            flag: AtomicBool::new(false),
            entries: AtomicU64::new(0),
            saw: AtomicBool::new(false),
        }
    }

    // Raises this side's flag and looks for the other's, a bounded number of turns. Between two looks it lets other
    // threads run.
    fn meet(&self, other: &Side) {
        self.entries.fetch_add(1, SeqCst);
        self.flag.store(true, SeqCst);
        for _ in 0..TURNS {
            if other.flag.load(SeqCst) {
                self.saw.store(true, SeqCst);
                break;
            }
            yield_now();
        }
    }
}

// Jobs 0 and 1 look for each other.
#[derive(Drop)]
struct Meeting {
    first: Side,
    second: Side,
}

impl Gate for Meeting {
    fn enter(&self, job: u64) {
        match job {
            0 => self.first.meet(&self.second),
            1 => self.second.meet(&self.first),
            _ => {}
        }
    }
}

#[test]
fn two_workers_are_at_work_at_once(rt: HostRuntime) -> Result<(), Fail> {
    let obs = constants(rt.alloc(), &[true, false])?;
    assert_eq!(rt; obs.len(), 2);
    let meeting = Meeting {
        first: Side::new(),
        second: Side::new(),
    };
    let crew = Crew {
        rt: &rt,
        alloc: rt.alloc(),
        workers: 2,
    };
    let ran = run_jobs(&crew, &obs, 9, &meeting)?;
    assert!(rt; ran.draws.as_slice() == [0, 1, 2, 3].as_slice());
    assert!(rt;
        meeting.first.entries.load(SeqCst) == 1 && meeting.second.entries.load(SeqCst) == 1
    );
    assert!(rt; meeting.first.saw.load(SeqCst) && meeting.second.saw.load(SeqCst));
    Ok(())
}

// Two seats draw one number each, and the closed word says that these are 0 and 1.
#[test]
fn two_seats_draw_each_number_once(rt: HostRuntime) -> Result<(), Fail> {
    let (tickets, mut seat) = Tickets::new(rt.alloc(), 3)?;
    let mut other = tickets.split(&mut seat, 2);
    let first = tickets.draw(&mut seat);
    let second = tickets.draw(&mut other);
    tickets.join(&mut seat, other);
    assert_eq!(rt; (first, second), (0, 1));
    assert_eq!(rt; tickets.close(seat), 2);
    Ok(())
}
