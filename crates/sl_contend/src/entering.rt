// Numbers entered into the rows of pools, in rising order.
ghost use Rattle.std.specs.Prelude.{◌≡◌, ◌^◌, ◌<◌, [], All, length, nat_eq, option_map, replicate, IfOk, OnOk, vec_len};
ghost use Rattle.sl_types.specs.Market.{lies_in};
ghost use Rattle.sl_contend.specs.Contention.{has_choice_in};
ghost use Rattle.sl_contend.specs.Entering.{rows_of, is_number, Enters, HoldFilled};
ghost use Rattle.sl_contend.specs.Rows.{AreCut};

use crate::filling::{Filling, Numbered};
use crate::rows::{Placed, Rows, bucket};
use sl_types::{Entry, Instance, PoolId};
use std::alloc::{AllocError, Global};

// So many rows with nothing in them.
pub fn empty_rows<T: Numbered>(alloc: Global, count: usize) -> Result<Filling<T>, AllocError>
    ensures rows { IfOk result (λ rows. rows_of T.number rows ≡ replicate count []) }
    ensures each { IfOk result (λ rows. vec_len rows.last ≡ count) }
{
    let last = vec![in alloc; None; count]?;
    Ok(Filling {
        placed: Vec::new(alloc),
        last,
    })
}

// Whether there is an item, and it has the number of another.
fn is_item<T: Numbered>(last: Option<T>, item: T) -> bool
    ensures { result ≡ is_number (option_map T.number last) (T.number item) }
{
    match last {
        Some(last) => last.number() == item.number(),
        None => false,
    }
}

// Enters a number into a row, unless the row is its own. Where it is the last there already, as numbers come
// in rising order, it stays so.
pub fn enter<T: Numbered>(rows: &mut Filling<T>, at: PoolId, item: T) -> Result<(), AllocError>
    requires { at.0 < vec_len rows.old.last }
    ensures rows { OnOk result
        (Enters T.number (T.owns item) (nat_eq at.0) (T.number item) rows.old rows.new) }
    ensures each { OnOk result (vec_len rows.new.last ≡ vec_len rows.old.last) }
{
    if item.owns(at) {
        return Ok(());
    }
    if is_item(rows.last[at.0 as usize], item) {
        return Ok(());
    }
    rows.placed.push(Placed { row: at, item })?;
    rows.last[at.0 as usize] = Some(item);
    Ok(())
}

// The rows, one after another.
pub fn finish<T: Numbered>(alloc: Global, rows: &Filling<T>) -> Result<Rows<T>, AllocError>
    requires { vec_len rows.now.last < 2 ^ 32 }
    ensures cut { IfOk result (AreCut (vec_len rows.now.last)) }
    ensures rows { IfOk result (HoldFilled T.number rows.now) }
{
    bucket(alloc, rows.last.len(), &rows.placed)
}

// Enters a number into a pool and the pools round it.
fn enter_round<T: Numbered>(
    instance: &Instance,
    rows: &mut Filling<T>,
    pool: PoolId,
    item: T,
) -> Result<(), AllocError>
    requires sizes { vec_len rows.old.last ≡ length instance.now.pools }
    requires within { pool.0 < length instance.now.pools }
    ensures rows { let round = lies_in instance.now pool.0 in
        OnOk result (Enters T.number (T.owns item) round (T.number item) rows.old rows.new) }
    ensures each { OnOk result (vec_len rows.new.last ≡ vec_len rows.old.last) }
{
    for here in instance.outward(pool) {
        enter(rows, here, item)?;
    }
    Ok(())
}

// Enters a number into each pool that a choice is in.
pub fn enter_choices<T: Numbered>(
    instance: &Instance,
    rows: &mut Filling<T>,
    choices: &[Entry],
    item: T,
) -> Result<(), AllocError>
    requires sizes { vec_len rows.old.last ≡ length instance.now.pools }
    requires within { All (λ e. e.prog.0 < length instance.now.progs) choices.now }
    ensures rows { let chosen = has_choice_in instance.now choices.now in
        OnOk result (Enters T.number (T.owns item) chosen (T.number item) rows.old rows.new) }
    ensures each { OnOk result (vec_len rows.new.last ≡ vec_len rows.old.last) }
{
    for choice in choices {
        enter_round(instance, rows, instance.pool_of(choice.prog), item)?;
    }
    Ok(())
}
