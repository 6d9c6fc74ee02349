// A gate that counts, and what may cross threads.
ghost use Rattle.std.specs.Prelude.{◌≡◌};
ghost use Rattle.sl_contend.specs.Contention.{contention_of};
ghost use Rattle.sl_floor.specs.Floor.{IsOf, IsIdle};
ghost use Rattle.sl_desk.specs.Desks.{IsFor};

use super::examples::displaced_twice;
use super::*;
use std::sync::atomic::{AtomicU64, Ordering};

// A gate that counts its calls, and those that it didn't await: by another worker, or with another
// turn than the number of calls before.
#[derive(Drop)]
struct Counter {
    worker: u32,
    calls: AtomicU64,
    others: AtomicU64,
}

impl Gate for Counter {
    fn at(&self, worker: u32, turn: u64) {
        let calls = self.calls.fetch_add(1, Ordering::SeqCst);
        if worker != self.worker || turn != calls {
            self.others.fetch_add(1, Ordering::SeqCst);
        }
    }
}

// It works until it stops, and passes the gate so often.
fn work_counted(
    rt: &impl Abort,
    floor: &Floor,
    seat: &mut Seat,
    desk: &mut Desk,
    instance: &Instance,
    contenders: &Contenders,
    calls: u64,
    answer: (Stop, &[(PoolId, u32)]),
)
    requires seat { IsOf floor.now seat.old }
    requires idle { IsIdle seat.old }
    requires instance { instance.now ≡ floor.now.market }
    requires contenders { contenders.now ≡ contention_of instance.now }
    requires desk { IsFor instance.now desk.old }
    ensures seat { IsOf floor.now seat.new }
    ensures idle { IsIdle seat.new }
    ensures desk { IsFor instance.now desk.new }
{
    let gate = Counter {
        worker: 1,
        calls: AtomicU64::new(0),
        others: AtomicU64::new(0),
    };
    work_on(rt, floor, seat, desk, instance, contenders, &gate, answer);
    assert_eq!(rt; gate.others.load(Ordering::SeqCst), 0);
    assert_eq!(rt; gate.calls.load(Ordering::SeqCst), calls);
}

// It goes on each time that it stops: how often it passes the gate, why it stops, and what it has
// logged.
fn go_on(
    rt: &impl Abort,
    floor: &Floor,
    seat: &mut Seat,
    desk: &mut Desk,
    instance: &Instance,
    contenders: &Contenders,
    answers: &[(u64, Stop, &[(PoolId, u32)])],
)
    requires seat { IsOf floor.now seat.old }
    requires idle { IsIdle seat.old }
    requires instance { instance.now ≡ floor.now.market }
    requires contenders { contenders.now ≡ contention_of instance.now }
    requires desk { IsFor instance.now desk.old }
{
    for at in 0..answers.len() {
        let (calls, stop, raises) = answers[at];
        let answer = (stop, raises);
        work_counted(rt, floor, seat, desk, instance, contenders, calls, answer);
    }
}

// A log of one entry stops the worker before each further claim, and the gate isn't called for it.
// The turns are counted from 0 again in each call.
#[test]
fn one_entry_logs(rt: HostRuntime) -> Result<(), Fail> {
    let alloc = rt.alloc();
    let instance = displaced_twice(alloc)?;
    let contenders = Contenders::new(alloc, &instance)?;
    let (floor, mut seat) = open(&rt, alloc, &instance, &contenders, 1)?;
    let mut desk = Desk::new(alloc, &instance, &contenders, 1, 3)?;
    let answers: [(u64, Stop, &[(PoolId, u32)]); 4] = [
        (2, Stop::LogFull, &[(B, 10)]),
        (1, Stop::LogFull, &[(A, 11)]),
        (1, Stop::LogFull, &[(B, 11)]),
        (1, Stop::Quiet, &[]),
    ];
    go_on(
        &rt,
        &floor,
        &mut seat,
        &mut desk,
        &instance,
        &contenders,
        &answers,
    );
    Ok(())
}

// Only for a value that another thread may take, and for one that threads may share.
fn take<T: Send>(_value: &T) {}

fn share<T: Sync>(_value: &T) {}

#[test]
fn desks_and_gates_cross_threads(rt: HostRuntime) -> Result<(), Fail> {
    let alloc = rt.alloc();
    let instance = displaced_twice(alloc)?;
    let contenders = Contenders::new(alloc, &instance)?;
    take(&Desk::new(alloc, &instance, &contenders, 0, 1)?);
    share(&OpenGate);
    Ok(())
}
