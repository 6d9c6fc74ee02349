// What the looks saw, and the document after it.
ghost use Rattle.std.specs.Prelude.{◌≡◌, ◌≢◌, ◌≤◌, ◌<◌, ◌++◌, ◌∷◌, [], All, length, map};
ghost use Rattle.std.specs.Prelude.{replicate, slice_index_or, OnOk, OnErr, IsErrOf};
ghost use Rattle.sl_types.specs.declared.kinds.Rule.TheVariants.{Merit};
ghost use Rattle.sl_io.specs.Sink.{Takes, TakesPart, RoseIn, KeepsCount};
ghost use Rattle.sl_doc.specs.Document.{IsInRange};
ghost use Rattle.sl_doc.specs.ResultText.{result_text};
ghost use Rattle.sl_run.specs.declared.words.TheConstants.{MAX_LOOKS};
ghost use Rattle.sl_run.specs.Looks.{look_lines, looks_text};

use sl_doc::{Doc, doc_text, seen_text};
use sl_instance::Named;
use sl_io::{Sink, WriteError};
use sl_types::Rule;
use std::alloc::Global;

// What the look of a number saw.
fn look_at(seen: &[Vec<u32>], number: usize) -> &[u32]
    requires { number < length seen.now }
    ensures { result.now ≡ slice_index_or (map (λ v. v.items) seen.entry.now) number [] }
{
    &seen[number]
}

// What the look before it saw, where these are the limits before the first.
fn look_before<'a>(zeros: &'a [u32], seen: &'a [Vec<u32>], number: usize) -> &'a [u32]
    requires { number < length seen.now }
    ensures { result.now
        ≡ slice_index_or (zeros.entry.now ∷ map (λ v. v.items) seen.entry.now) number [] }
{
    if number == 0 {
        return zeros;
    }
    look_at(seen, number - 1)
}

// Puts the lines of the look of a number, where these are the limits before the first look.
fn put_look<O: Sink>(
    alloc: Global,
    named: &Named,
    zeros: &[u32],
    seen: &[Vec<u32>],
    number: usize,
    out: &mut O,
) -> Result<(), WriteError>
    requires zeros { zeros.now ≡ replicate (length named.now.market.pools) 0 }
    requires within { number < length seen.now }
    requires few { length seen.now ≤ MAX_LOOKS }
    requires long { let pools = length named.now.market.pools in
        All (λ look. length look ≡ pools) (map (λ v. v.items) seen.now) }
    ensures text { let text = look_lines named.now (map (λ v. v.items) seen.now) number in
        OnOk result (Takes (O.output out.old) (O.output out.new) text) }
    ensures part { let text = look_lines named.now (map (λ v. v.items) seen.now) number in
        OnErr result (TakesPart (O.output out.old) (O.output out.new) text) }
    ensures cause { IsErrOf result WriteError.Fault → RoseIn (O.output out.old) (O.output out.new) }
    ensures later { KeepsCount (O.output out.old) (O.output out.new) }
{
    let before = look_before(zeros, seen, number);
    let now = look_at(seen, number);
    seen_text(alloc, named, number as u32 + 1, before, now, out)
}

// Puts the lines of all looks, up to the first error.
fn put_looks<O: Sink>(
    alloc: Global,
    named: &Named,
    seen: &[Vec<u32>],
    out: &mut O,
) -> Result<(), WriteError>
    requires few { length seen.now ≤ MAX_LOOKS }
    requires long { let pools = length named.now.market.pools in
        All (λ look. length look ≡ pools) (map (λ v. v.items) seen.now) }
    ensures text { let text = looks_text named.now (map (λ v. v.items) seen.now) in
        OnOk result (Takes (O.output out.old) (O.output out.new) text) }
    ensures part { let text = looks_text named.now (map (λ v. v.items) seen.now) in
        OnErr result (TakesPart (O.output out.old) (O.output out.new) text) }
    ensures cause { IsErrOf result WriteError.Fault → RoseIn (O.output out.old) (O.output out.new) }
    ensures later { KeepsCount (O.output out.old) (O.output out.new) }
{
    let zeros: Vec<u32> = vec![in alloc; 0; named.instance().pools()]?;
    for number in 0..seen.len() {
        put_look(alloc, named, &zeros, seen, number, out)?;
    }
    Ok(())
}

/// Puts what the looks saw, and then the document.
pub fn put_watched<O: Sink>(
    alloc: Global,
    named: &Named,
    rule: Rule,
    doc: &Doc,
    seen: &[Vec<u32>],
    out: &mut O,
) -> Result<(), WriteError>
    requires in_range { IsInRange named.now doc.now }
    requires letter { rule ≢ Merit }
    requires few { length seen.now ≤ MAX_LOOKS }
    requires long { let pools = length named.now.market.pools in
        All (λ look. length look ≡ pools) (map (λ v. v.items) seen.now) }
    ensures text { let looks = looks_text named.now (map (λ v. v.items) seen.now) in
        let text = looks ++ result_text named.now rule doc.now in
        OnOk result (Takes (O.output out.old) (O.output out.new) text) }
    ensures part { let looks = looks_text named.now (map (λ v. v.items) seen.now) in
        let text = looks ++ result_text named.now rule doc.now in
        OnErr result (TakesPart (O.output out.old) (O.output out.new) text) }
    ensures cause { IsErrOf result WriteError.Fault → RoseIn (O.output out.old) (O.output out.new) }
{
    put_looks(alloc, named, seen, out)?;
    doc_text(alloc, named, rule, doc, out)
}
