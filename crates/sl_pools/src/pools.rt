ghost use Rattle.std.specs.Prelude.{◌≡◌, ◌≢◌, ◌≤◌, ◌<◌, ◌∷◌, ◌++◌, [], None, Some, List, length, map, position, OnOk, IfOk, IfErr, MatchResult, MatchOption, IfNone, true, false};
ghost use Rattle.std.specs.Option.{option_or};
ghost use Rattle.csv.specs.Records.{fields_of, partial_of};
ghost use Rattle.sl_types.specs.declared.kinds.Rule.TheVariants.{Merit};
ghost use Rattle.sl_codes.specs.Faults.{FailsBy, record_cause, first_fault, pass_fault, IsWrong, IsFirst};
ghost use Rattle.sl_codes.specs.declared.faults.Cause.TheVariants.{UnknownParent};
ghost use Rattle.sl_codes.specs.declared.faults.Table.TheVariants.{Pools};
ghost use Rattle.sl_codes.specs.Fields.{number_of_field};
ghost use Rattle.sl_codes.specs.Records.{Record, records_of, rows_of, field_of, codes_of};
ghost use Rattle.sl_pools.specs.Pools.{FindsParent, parent_named, quota_cause, parent_cause, kind_cause, rule_of_kind, pool_form, pool_unlinked, parents_of, linked, is_unknown_parent, link_fault, pools_of, first_pool_fault, IsPoolList};
ghost use Rattle.sl_pools.specs.Taking.{IsRightAfter, IsWrongAfter};

use crate::nesting::{nesting_fault, pass_fault};
use csv::ByteRecord;
use sl_codes::{
    Cause, Codes, ReadError, Records, RowError, Table, add_code, code, field, number, read_header,
};
use sl_types::{MAX_POOLS, MAX_QUOTA, Pool, PoolId, Rule};
use std::alloc::Global;
use std::marker::Model;

const HEADER: [&str; 4] = ["pool", "quota", "parent", "kind"];

/// The pools of a table and their codes, in the order of its records.
#[derive(Drop)]
pub struct PoolTable {
    codes: Codes,
    pools: Vec<Pool>,
}

impl Model for PoolTable {
    ghost use Rattle.sl_pools.specs.Pools.{FindsParent, PoolList, IsPoolList};

    ghost Value = { PoolList };

    ghost view = { λ s. record { codes = s.codes; pools = s.pools.items } };

    ghost invariant = { λ s. IsPoolList (record { codes = s.codes; pools = s.pools.items }) };
}

impl PoolTable {
    /// The codes of the pools.
    pub fn codes(&self) -> &Codes
        ensures { result.now ≡ self.now.codes }
    {
        &self.codes
    }

    /// The pools.
    pub fn pools(&self) -> &[Pool]
        ensures pools { result.now ≡ self.now.pools }
        ensures right { IsPoolList self.now }
    {
        self.pools.as_slice()
    }

    /// The codes and the pools.
    pub fn into_parts(self) -> (Codes, Vec<Pool>)
        ensures codes { result.0 ≡ self.codes }
        ensures pools { result.1.items ≡ self.pools }
        ensures right { IsPoolList self }
    {
        (self.codes, self.pools)
    }
}

// What the records of a pool table hold before the whole file was read: the code and the pool of each, and
// the field that names its parent.
#[derive(Drop)]
struct Draft {
    codes: Codes,
    pools: Vec<Pool>,
    parents: ByteRecord,
}

// The quota of a field.
fn quota(field: &[u8]) -> Result<u32, Cause>
    ensures quota { IfOk result (λ n. number_of_field field.now ≡ Some n) }
    ensures cause { FailsBy (quota_cause field.now) result }
{
    let Some(quota) = number(field) else {
        return Err(Cause::BadNumber);
    };
    if quota < 1 || quota > MAX_QUOTA {
        return Err(Cause::BadQuota);
    }
    Ok(quota)
}

// A parent is empty or a code. Whether there is such a pool is a matter of the whole file.
fn check_parent(field: &[u8]) -> Result<(), Cause>
    ensures { FailsBy (parent_cause field.now) result }
{
    if !field.is_empty() {
        code(field)?;
    }
    Ok(())
}

// The rule of a kind, where pools of kind `score` have the one that is given.
fn kind_rule(rule: Rule, field: &[u8]) -> Result<Rule, Cause>
    ensures rule { IfOk result (λ r. r ≡ rule_of_kind rule field.now) }
    ensures cause { FailsBy (kind_cause field.now) result }
{
    if field == "merit".as_bytes() {
        return Ok(Rule::Merit);
    }
    if field == "score".as_bytes() {
        return Ok(rule);
    }
    Err(Cause::BadKind)
}

impl Draft {
    fn new(alloc: Global) -> Draft
        ensures codes { result.codes ≡ [] }
        ensures pools { result.pools.items ≡ [] }
        ensures parents { fields_of result.parents ≡ [] }
        ensures whole { partial_of result.parents ≡ [] }
    {
        Draft {
            codes: Codes::new(alloc),
            pools: Vec::new(alloc),
            parents: ByteRecord::new(alloc),
        }
    }

    // Takes the record of a pool, where pools of kind `score` have this rule.
    fn take(&mut self, rule: Rule, row: &ByteRecord) -> Result<(), RowError>
        requires { partial_of self.old.parents ≡ [] }
        ensures right { OnOk result (IsRightAfter pool_form self.old.codes (fields_of row.now)) }
        ensures room { OnOk result (length self.old.codes < MAX_POOLS) }
        ensures codes { OnOk result (self.new.codes ≡ self.old.codes ++ field_of (fields_of row.now) 0 ∷ []) }
        ensures pools { let pool = pool_unlinked rule (fields_of row.now) in
            OnOk result (self.new.pools.items ≡ self.old.pools.items ++ pool ∷ []) }
        ensures parents { let field = field_of (fields_of row.now) 2 in
            OnOk result (fields_of self.new.parents ≡ fields_of self.old.parents ++ field ∷ []) }
        ensures whole { OnOk result (partial_of self.new.parents ≡ []) }
        ensures wrong { IfErr result (IsWrongAfter pool_form self.old.codes (fields_of row.now)) }
    {
        if row.len() != HEADER.len() {
            return Err(RowError::Bad(Cause::FieldCount));
        }
        if self.codes.len() >= MAX_POOLS {
            return Err(RowError::Bad(Cause::TooMany));
        }
        add_code(&mut self.codes, field(row, 0), Cause::RepeatedPool)?;
        let quota = quota(field(row, 1))?;
        check_parent(field(row, 2))?;
        let rule = kind_rule(rule, field(row, 3))?;
        let pool = Pool {
            quota,
            parent: None,
            rule,
        };
        if self.parents.push_field(field(row, 2)).is_err() || self.pools.push(pool).is_err() {
            return Err(RowError::OutOfMemory);
        }
        Ok(())
    }
}

// Reads the records of a pool table, one after another.
fn read_draft(alloc: Global, bytes: &[u8], rule: Rule) -> Result<Draft, ReadError>
    ensures right { OnOk result (first_fault pool_form (records_of bytes.now) ≡ None) }
    ensures codes { IfOk result (λ draft. draft.codes ≡ codes_of (rows_of bytes.now)) }
    ensures pools { IfOk result (λ draft. draft.pools.items ≡ map (pool_unlinked rule) (rows_of bytes.now)) }
    ensures parents { IfOk result (λ draft. fields_of draft.parents ≡ parents_of (rows_of bytes.now)) }
    ensures few { OnOk result (length (rows_of bytes.now) ≤ MAX_POOLS) }
    ensures refused { IfErr result (IsFirst (first_fault pool_form (records_of bytes.now))) }
{
    let mut records = Records::new(alloc, bytes);
    let mut row = ByteRecord::new(alloc);
    read_header(&mut records, &mut row, Table::Pools, &HEADER)?;
    let mut draft = Draft::new(alloc);
    'rows: while records.next(&mut row)? {
        let before = draft.pools.len();
        if let Err(e) = draft.take(rule, &row) {
            return Err(e.after(Table::Pools, before));
        }
    }
    Ok(draft)
}

// The parent that a field names, where there is such a pool or the field is empty.
fn parent_named(codes: &Codes, field: &[u8]) -> Option<Option<PoolId>>
    ensures { FindsParent codes.now field.now result }
{
    if field.is_empty() {
        return Some(None);
    }
    let number = codes.find_bytes(field)?;
    Some(Some(PoolId(number)))
}

// Gives each pool the parent that its field names. The error is the first pool whose parent is no pool.
fn link(codes: &Codes, parents: &ByteRecord, pools: &mut [Pool]) -> Result<(), usize>
    requires { length (fields_of parents.now) ≡ length pools.old }
    ensures linked { OnOk result (pools.new ≡ linked codes.now (fields_of parents.now) pools.old) }
    ensures known { OnOk result (position (is_unknown_parent codes.now) (fields_of parents.now) ≡ None) }
    ensures unknown { IfErr result (λ at. position (is_unknown_parent codes.now) (fields_of parents.now) ≡ Some at) }
    ensures within { IfErr result (λ at. at < length pools.old) }
{
    'pools: for pool in 0..pools.len() {
        match parent_named(codes, field(parents, pool)) {
            Some(parent) => pools[pool].parent = parent,
            None => return Err(pool),
        }
    }
    Ok(())
}

// The passes over the whole file, of which the first gives each pool its parent.
fn pass_over(
    alloc: Global,
    codes: &Codes,
    parents: &ByteRecord,
    pools: &mut [Pool],
) -> Result<(), ReadError>
    requires few { length pools.old ≤ MAX_POOLS }
    requires each { length (fields_of parents.now) ≡ length pools.old }
    ensures right { OnOk result (link_fault codes.now (fields_of parents.now) pools.old ≡ None) }
    ensures linked { OnOk result (pools.new ≡ linked codes.now (fields_of parents.now) pools.old) }
    ensures refused { IfErr result (IsFirst (link_fault codes.now (fields_of parents.now) pools.old)) }
{
    if let Err(pool) = link(codes, parents, pools) {
        return Err(ReadError::Bad(pass_fault(Cause::UnknownParent, pool)));
    }
    match nesting_fault(alloc, pools) {
        Ok(None) => Ok(()),
        Ok(Some(fault)) => Err(ReadError::Bad(fault)),
        Err(_) => Err(ReadError::OutOfMemory),
    }
}

/// Reads a pool table. Pools of kind `score` have the rule that is given, H or L.
pub fn read_pools(alloc: Global, bytes: &[u8], rule: Rule) -> Result<PoolTable, ReadError>
    requires rule { rule ≢ Merit }
    ensures right { OnOk result (first_pool_fault rule (records_of bytes.now) ≡ None) }
    ensures table { IfOk result (λ table. table ≡ pools_of rule (rows_of bytes.now)) }
    ensures refused { IfErr result (IsFirst (first_pool_fault rule (records_of bytes.now))) }
{
    let Draft {
        codes,
        mut pools,
        parents,
    } = read_draft(alloc, bytes, rule)?;
    pass_over(alloc, &codes, &parents, &mut pools)?;
    Ok(PoolTable { codes, pools })
}
