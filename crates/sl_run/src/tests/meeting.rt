// Two workers who meet: a body that works on one thread fails this test.
use super::*;
use sl_desk::Gate;
use std::sync::atomic::{AtomicBool, AtomicU32, Ordering};
use std::thread::yield_now;

// Holds the first call of each of two workers until the other's first call has come, for a bounded
// time.
#[derive(Drop)]
struct Meeting {
    came: [AtomicBool; 2],
    met: AtomicU32,
}

impl Gate for Meeting {
    fn at(&self, worker: u32, turn: u64) {
        if turn > 0 || worker > 1 {
            return;
        }
        self.came[worker as usize].store(true, Ordering::SeqCst);
        for _ in 0u32..10_000_000 {
            if self.came[1 - worker as usize].load(Ordering::SeqCst) {
                self.met.fetch_add(1, Ordering::SeqCst);
                return;
            }
            yield_now();
        }
    }
}

#[test]
fn two_workers_meet(rt: HostRuntime) -> Result<(), Fail> {
    let mut clear = CLEAR;
    clear[2] = "2";
    let words = words_of(rt.alloc(), &clear)?;
    let mut shelf = shelf_of(rt.alloc(), displaced())?;
    let mut out = MemSink::new(rt.alloc(), 1000)?;
    let mut err = MemSink::new(rt.alloc(), 1000)?;
    let gate = Meeting {
        came: [AtomicBool::new(false), AtomicBool::new(false)],
        met: AtomicU32::new(0),
    };
    let ended = run(
        &rt,
        rt.alloc(),
        &words,
        &mut shelf,
        &mut out,
        &mut err,
        &gate,
    );
    assert_eq!(rt; ended.status, 0);
    assert_eq!(rt; gate.met.load(Ordering::SeqCst), 2);
    Ok(())
}
