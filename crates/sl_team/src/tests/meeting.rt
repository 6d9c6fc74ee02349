// Two workers who meet: a body that works on one thread fails this test.
use super::examples::EXAMPLES;
use super::*;
use std::sync::atomic::{AtomicBool, AtomicU32, Ordering};
use std::thread::yield_now;

// Holds the first call of each of two workers until the other's first call has come, for a bounded time.
#[derive(Drop)]
struct Meeting {
    came: [AtomicBool; 2],
    met: AtomicU32,
}

impl Gate for Meeting {
    fn at(&self, worker: u32, turn: u64) {
        if turn > 0 || worker > 1 {
            return;
        }
        self.came[worker as usize].store(true, Ordering::SeqCst);
        for _ in 0u32..10_000_000 {
            if self.came[1 - worker as usize].load(Ordering::SeqCst) {
                self.met.fetch_add(1, Ordering::SeqCst);
                return;
            }
            yield_now();
        }
    }
}

#[test]
fn two_workers_meet(rt: HostRuntime) -> Result<(), Fail> {
    let alloc = rt.alloc();
    let instance = EXAMPLES[5].instance(alloc)?;
    let contenders = Contenders::new(alloc, &instance)?;
    let gate = Meeting {
        came: [AtomicBool::new(false), AtomicBool::new(false)],
        met: AtomicU32::new(0),
    };
    let cleared = clear(&rt, alloc, &instance, &contenders, &[], 2, 65_536, 0, &gate)?;
    assert_eq!(rt; gate.met.load(Ordering::SeqCst), 2);
    assert_eq!(rt; cleared.limits.as_slice(), [11, 11].as_slice());
    Ok(())
}
