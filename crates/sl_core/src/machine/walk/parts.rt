// The parts, but for what they say of sizes, kept raises and reads that are not made, as a program can look at them.
use super::*;

// What a list has at a pool.
fn number_at(numbers: &[u32], pool: PoolId) -> u32 {
    numbers.get(pool.0 as usize).copied().unwrap_or(0)
}

fn has_raise(log: &[Logged], pool: PoolId, x: u32) -> bool {
    log.iter()
        .any(|entry| entry.pool == pool && entry.limit == x)
}

// x is 0 or the limit of a logged raise of the pool.
fn is_logged(machine: &Machine, pool: PoolId, x: u32) -> bool {
    x == 0
        || machine
            .workers
            .iter()
            .any(|worker| has_raise(&worker.log, pool, x))
}

// What an actor knows and has read of a pool is logged, and no more than the word.
fn knows_no_more(machine: &Machine, worker: &Worker, pool: PoolId) -> bool {
    let known = number_at(&worker.known, pool);
    let read = number_at(&worker.reads, pool);
    known <= number_at(&machine.limits, pool)
        && read <= known
        && is_logged(machine, pool, known)
        && is_logged(machine, pool, read)
}

// The entry with a ticket.
fn entry_with(machine: &Machine, ticket: u64) -> Option<Logged> {
    for worker in machine.workers.iter() {
        if let Some(entry) = worker.log.iter().find(|entry| entry.ticket == ticket) {
            return Some(*entry);
        }
    }
    None
}

// Each ticket below the ticket number stands in a log, and there are no more entries than tickets. In order of ticket
// each raise is void or justified at the limits so far.
fn are_sound(rt: &impl Abort, alloc: Global, machine: &Machine) -> Result<(), Fail> {
    let instance = machine.instance;
    let mut limits = vec![in alloc; 0; instance.pools()]?;
    for ticket in 0..machine.ticket {
        let entry = entry_with(machine, ticket);
        assert!(rt; entry.is_some());
        if let Some(entry) = entry {
            replay(rt, instance, &mut limits, entry);
        }
    }
    let mut entries = 0u64;
    for worker in machine.workers.iter() {
        entries = entries.saturating_add(worker.log.len() as u64);
    }
    assert_eq!(rt; entries, machine.ticket);
    Ok(())
}

fn replay(rt: &impl Abort, instance: &Instance, limits: &mut [u32], entry: Logged) {
    let at = entry.pool.0 as usize;
    assert_eq!(rt; limits.len(), instance.pools());
    assert!(rt; at < limits.len());
    if entry.limit > plain_eff(instance, limits, entry.pool) {
        assert!(rt; plain_justified(instance, limits, entry.pool, entry.limit));
    }
    limits[at] = limits[at].max(entry.limit);
}

// Each entry is at most its word, except the newest of an actor that has drawn it.
fn is_raised(machine: &Machine, worker: &Worker) -> bool {
    let done = match worker.phase {
        Phase::Drawn(_, _) => worker.log.len().saturating_sub(1),
        _ => worker.log.len(),
    };
    worker.log.iter().take(done).all(|entry| entry.limit <= number_at(&machine.limits, entry.pool))
}

// The actor has the pool in hand, and its reads so far of pools that feed it equal the words.
fn is_fresh(machine: &Machine, worker: &Worker, pool: PoolId) -> bool {
    let in_hand = match worker.phase {
        Phase::Working(at) | Phase::Ready(at, _) | Phase::Drawn(at, _) => at == pool,
        Phase::Idle | Phase::Owing(_) => false,
    };
    in_hand
        && (0..POOLS).all(|number| {
            let from = PoolId(number);
            !has_pool(&worker.made, from)
                || !plain_feeds(machine.instance, from, pool)
                || number_at(&worker.reads, from) == number_at(&machine.limits, from)
        })
}

fn owes(worker: &Worker, pool: PoolId) -> bool {
    matches!(worker.phase, Phase::Owing(_)) && has_pool(&worker.owed, pool)
}

// Its flag is up, or a mark is owed, or reads of it are fresh, or it is settled; and a flag that is up is left to scan.
fn is_covered(rt: &impl Abort, machine: &Machine, pool: PoolId) -> bool {
    assert_eq!(rt; machine.limits.len(), machine.instance.pools());
    assert!(rt; (pool.0 as usize) < machine.limits.len());
    let workers = &machine.workers;
    if has_pool(&machine.flags, pool) {
        return workers.iter().any(|worker| has_pool(&worker.left, pool));
    }
    workers.iter().any(|worker| owes(worker, pool))
        || workers.iter().any(|worker| is_fresh(machine, worker, pool))
        || plain_settled(machine.instance, &machine.limits, pool)
}

// The reads are of the pool or of pools that feed it.
fn is_reading(machine: &Machine, worker: &Worker, at: PoolId) -> bool {
    (0..POOLS).all(|number| {
        let from = PoolId(number);
        !has_pool(&worker.made, from) || from == at || plain_feeds(machine.instance, from, at)
    })
}

// All these reads are made, and x is the greatest justified raise at them, above the effective limit at them.
fn has_found(rt: &impl Abort, machine: &Machine, worker: &Worker, at: PoolId, x: u32) -> bool {
    let instance = machine.instance;
    assert_eq!(rt; worker.reads.len(), instance.pools());
    assert!(rt; (at.0 as usize) < worker.reads.len());
    let all = (0..POOLS).all(|number| {
        let from = PoolId(number);
        has_pool(&worker.made, from) || !(from == at || plain_feeds(instance, from, at))
    });
    all && is_reading(machine, worker, at)
        && x > plain_eff(instance, &worker.reads, at)
        && plain_justified(instance, &worker.reads, at, x)
        && !plain_justified(instance, &worker.reads, at, x.saturating_add(1))
}

fn ends_in(log: &[Logged], at: PoolId, x: u32) -> bool {
    log.last()
        .is_some_and(|entry| entry.pool == at && entry.limit == x)
}

fn fits_phase(rt: &impl Abort, machine: &Machine, worker: &Worker) -> bool {
    match worker.phase {
        Phase::Idle => true,
        Phase::Working(at) => at.0 < POOLS && is_reading(machine, worker, at),
        Phase::Ready(at, x) => has_found(rt, machine, worker, at, x),
        Phase::Drawn(at, x) => {
            has_found(rt, machine, worker, at, x) && ends_in(&worker.log, at, x)
        }
        Phase::Owing(at) => at.0 < POOLS,
    }
}

fn pool_has_parts(rt: &impl Abort, machine: &Machine, pool: PoolId) {
    assert!(rt; is_logged(machine, pool, number_at(&machine.limits, pool)));
    assert!(rt; is_covered(rt, machine, pool));
    for worker in machine.workers.iter() {
        assert!(rt; knows_no_more(machine, worker, pool));
    }
}

pub fn has_parts(rt: &impl Abort, alloc: Global, machine: &Machine) -> Result<(), Fail> {
    for number in 0..POOLS {
        pool_has_parts(rt, machine, PoolId(number));
    }
    for worker in machine.workers.iter() {
        assert!(rt; is_raised(machine, worker));
        assert!(rt; fits_phase(rt, machine, worker));
    }
    are_sound(rt, alloc, machine)
}
