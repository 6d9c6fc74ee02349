// Readers of progress.
use super::examples::EXAMPLES;
use super::*;
use std::sync::atomic::{AtomicBool, AtomicU32, Ordering};
use std::thread::yield_now;

// Holds the second look until the one worker is about to claim its second pool, and that claim until the third
// look is about to come, each for a bounded time. The reader's number is 1.
#[derive(Drop)]
struct Between {
    claims: AtomicBool,
    looked: AtomicBool,
    met: AtomicU32,
}

impl Between {
    // Waits for a call, for a bounded time.
    fn hold(&self, came: &AtomicBool) {
        for _ in 0u32..10_000_000 {
            if came.load(Ordering::SeqCst) {
                self.met.fetch_add(1, Ordering::SeqCst);
                return;
            }
            yield_now();
        }
    }
}

impl Gate for Between {
    fn at(&self, worker: u32, turn: u64) {
        match (worker, turn) {
            (0, 1) => {
                self.claims.store(true, Ordering::SeqCst);
                self.hold(&self.looked);
            }
            (1, 1) => self.hold(&self.claims),
            (1, 2) => self.looked.store(true, Ordering::SeqCst),
            _ => {}
        }
    }
}

// A look between two raises: a body that makes no looks beside the worker fails this test.
#[test]
fn looks_between_two_raises(rt: HostRuntime) -> Result<(), Fail> {
    let alloc = rt.alloc();
    let instance = EXAMPLES[1].instance(alloc)?;
    let contenders = Contenders::new(alloc, &instance)?;
    let gate = Between {
        claims: AtomicBool::new(false),
        looked: AtomicBool::new(false),
        met: AtomicU32::new(0),
    };
    let cleared = clear(&rt, alloc, &instance, &contenders, &[], 1, 65_536, 3, &gate)?;
    assert_eq!(rt; gate.met.load(Ordering::SeqCst), 2);
    assert_eq!(rt; cleared.seen.len(), 3);
    assert_eq!(rt; cleared.seen[1].as_slice(), [9, 0].as_slice());
    assert_eq!(rt; cleared.limits.as_slice(), [9, 9].as_slice());
    Ok(())
}

// What looks saw rises, to the limits at most.
fn rises(rt: &impl Abort, seen: &[Vec<u32>], limits: &[u32]) {
    for look in 0..seen.len() {
        assert_eq!(rt; seen[look].len(), limits.len());
        for pool in 0..limits.len() {
            assert!(rt; pool < seen[look].len());
            assert!(rt; seen[look][pool] <= limits[pool]);
            if look > 0 {
                assert!(rt; pool < seen[look - 1].len());
                assert!(rt; seen[look - 1][pool] <= seen[look][pool]);
            }
        }
    }
}

// So many workers with logs of this room, and so many looks.
fn watches_to<R: Threads + Abort + Sync>(
    rt: &R,
    alloc: Global,
    instance: &Instance,
    workers: u32,
    room: usize,
    looks: u32,
    limits: &[u32],
) -> Result<(), Fail> {
    assert!(rt; 1 <= workers && workers <= 64);
    assert!(rt; 1 <= room && room <= 65_536);
    assert!(rt; looks <= 100);
    let contenders = Contenders::new(alloc, instance)?;
    let cleared = clear(
        rt,
        alloc,
        instance,
        &contenders,
        &[],
        workers,
        room,
        looks,
        &OpenGate,
    )?;
    assert_eq!(rt; cleared.limits.as_slice(), limits);
    assert_eq!(rt; cleared.seen.len(), looks as usize);
    rises(rt, &cleared.seen, limits);
    replays(rt, alloc, instance, &contenders, &cleared.raises)
}

#[test]
fn watched_clearings(rt: HostRuntime) -> Result<(), Fail> {
    let alloc = rt.alloc();
    for example in &EXAMPLES {
        let instance = example.instance(alloc)?;
        watches_to(&rt, alloc, &instance, 4, 65_536, 3, example.limits)?;
        watches_to(&rt, alloc, &instance, 1, 1, 1, example.limits)?;
        watches_to(&rt, alloc, &instance, 64, 2, 100, example.limits)?;
    }
    let none = Instance::new(alloc, Vec::new(alloc), Vec::new(alloc), Vec::new(alloc))?;
    watches_to(&rt, alloc, &none, 1, 1, 1, &[])
}
