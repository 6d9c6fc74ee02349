ghost use Rattle.std.specs.Prelude.{◌≡◌, ◌≤◌, ◌<◌, ◌∷◌, ◌++◌, [], None, List, length, All, OnOk, IfOk, IfErr};
ghost use Rattle.csv.specs.Records.{fields_of};
ghost use Rattle.sl_codes.specs.Faults.{record_cause, first_fault, IsWrong, IsFirst};
ghost use Rattle.sl_codes.specs.Records.{Record, records_of, rows_of, field_of, codes_of};
ghost use Rattle.sl_pools.specs.Programmes.{programme_form, pool_named, programmes_of, IsProgList};
ghost use Rattle.sl_pools.specs.Taking.{IsRightAfter, IsWrongAfter};

use crate::PoolTable;
use csv::ByteRecord;
use sl_codes::{Cause, Codes, ReadError, Records, RowError, Table, add_code, field, read_header};
use sl_types::{MAX_PROGRAMMES, PoolId};
use std::alloc::Global;
use std::marker::Model;

const HEADER: [&str; 2] = ["programme", "pool"];

/// The programmes of a table in the order of its records: their codes, and each one's smallest pool.
#[derive(Drop)]
pub struct ProgTable {
    codes: Codes,
    pools: Vec<PoolId>,
}

impl Model for ProgTable {
    ghost use Rattle.sl_pools.specs.Programmes.{ProgList, IsProgList};

    ghost Value = { ProgList };

    ghost view = { λ s. record { codes = s.codes; pools = s.pools.items } };

    ghost invariant = { λ s. IsProgList (record { codes = s.codes; pools = s.pools.items }) };
}

impl ProgTable {
    /// The codes of the programmes.
    pub fn codes(&self) -> &Codes
        ensures { result.now ≡ self.now.codes }
    {
        &self.codes
    }

    /// The smallest pool of each programme.
    pub fn pools(&self) -> &[PoolId]
        ensures pools { result.now ≡ self.now.pools }
        ensures right { IsProgList self.now }
    {
        self.pools.as_slice()
    }

    /// The codes and the pools.
    pub fn into_parts(self) -> (Codes, Vec<PoolId>)
        ensures codes { result.0 ≡ self.codes }
        ensures pools { result.1.items ≡ self.pools }
        ensures right { IsProgList self }
    {
        (self.codes, self.pools)
    }
}

// Takes the record of a programme.
fn take_programme(
    pools: &Codes,
    codes: &mut Codes,
    progs: &mut Vec<PoolId>,
    row: &ByteRecord,
) -> Result<(), RowError>
    ensures right { let form = programme_form pools.now in
        OnOk result (IsRightAfter form codes.old (fields_of row.now)) }
    ensures room { OnOk result (length codes.old < MAX_PROGRAMMES) }
    ensures codes { OnOk result (codes.new ≡ codes.old ++ field_of (fields_of row.now) 0 ∷ []) }
    ensures progs { let pool = pool_named pools.now (fields_of row.now) in
        OnOk result (progs.new.items ≡ progs.old.items ++ pool ∷ []) }
    ensures wrong { let form = programme_form pools.now in
        IfErr result (IsWrongAfter form codes.old (fields_of row.now)) }
{
    if row.len() != HEADER.len() {
        return Err(RowError::Bad(Cause::FieldCount));
    }
    if codes.len() >= MAX_PROGRAMMES {
        return Err(RowError::Bad(Cause::TooMany));
    }
    add_code(codes, field(row, 0), Cause::RepeatedProgramme)?;
    let Some(pool) = pools.find_bytes(field(row, 1)) else {
        return Err(RowError::Bad(Cause::UnknownPool));
    };
    if progs.push(PoolId(pool)).is_err() {
        return Err(RowError::OutOfMemory);
    }
    Ok(())
}

/// Reads a programme table, over a pool table that was read before.
pub fn read_programmes(
    alloc: Global,
    bytes: &[u8],
    pools: &PoolTable,
) -> Result<ProgTable, ReadError>
    ensures right { let first = first_fault (programme_form pools.now.codes) in
        OnOk result (first (records_of bytes.now) ≡ None) }
    ensures table { let list = programmes_of pools.now.codes in
        IfOk result (λ table. table ≡ list (rows_of bytes.now)) }
    ensures within { IfOk result (λ table. All (λ Q. Q.0 < length pools.now.codes) table.pools) }
    ensures refused { let first = first_fault (programme_form pools.now.codes) in
        IfErr result (IsFirst (first (records_of bytes.now))) }
{
    let mut records = Records::new(alloc, bytes);
    let mut row = ByteRecord::new(alloc);
    read_header(&mut records, &mut row, Table::Programmes, &HEADER)?;
    let mut codes = Codes::new(alloc);
    let mut progs = Vec::new(alloc);
    'rows: while records.next(&mut row)? {
        let before = progs.len();
        if let Err(e) = take_programme(pools.codes(), &mut codes, &mut progs, &row) {
            return Err(e.after(Table::Programmes, before));
        }
    }
    Ok(ProgTable {
        codes,
        pools: progs,
    })
}
