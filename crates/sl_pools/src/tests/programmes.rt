use super::*;

#[test]
fn wrong_programmes(rt: HostRuntime) -> Result<(), Fail> {
    for (rows, at, cause) in [
        ("a\n", 2, Cause::FieldCount),
        ("a,A,\n", 2, Cause::FieldCount),
        (",A\n", 2, Cause::BadCode),
        ("a,A\nb,B\na,A\n", 4, Cause::RepeatedProgramme),
        ("a,Z\n", 2, Cause::UnknownPool),
        ("a,\n", 2, Cause::UnknownPool),
        ("a,a\n", 2, Cause::UnknownPool),
        // Before another.
        (",Z,\n", 2, Cause::FieldCount),
        (",Z\n", 2, Cause::BadCode),
        ("a,A\na,Z\n", 3, Cause::RepeatedProgramme),
        ("a,Z\na,A\n", 2, Cause::UnknownPool),
        ("a,Z\nb\n", 2, Cause::UnknownPool),
    ] {
        let found = programmes_refusal(rt.alloc(), PROGRAMMES, rows.as_bytes())?;
        assert_eq!(rt; found, fault(Table::Programmes, at, cause), "{rows}");
    }
    Ok(())
}

#[test]
fn programmes_in_order(rt: HostRuntime) -> Result<(), Fail> {
    let pools = read_pools(rt.alloc(), AB.as_bytes(), Rule::H)?;
    let text = "\u{FEFF}programme,pool\r\nb,B\r\n\"a,1\",A\r\nA,\"A\"";
    let table = read_programmes(rt.alloc(), text.as_bytes(), &pools)?;
    assert_eq!(rt; table.codes().find("b"), Some(0));
    assert_eq!(rt; table.codes().find("a,1"), Some(1));
    assert_eq!(rt; table.codes().find("A"), Some(2));
    let (codes, found) = table.into_parts();
    assert_eq!(rt; codes.len(), 3);
    assert_eq!(rt;
        found.as_slice(),
        [PoolId(1), PoolId(0), PoolId(0)].as_slice()
    );
    Ok(())
}

#[test]
fn many_programmes(rt: HostRuntime) -> Result<(), Fail> {
    let mut text = String::new(rt.alloc());
    for row in 0..50_000 {
        write!(text, "g{row},B\n")?;
    }
    let found = programmes_refusal(rt.alloc(), PROGRAMMES, text.as_bytes())?;
    assert_eq!(rt; found, None);
    text.push_str("more,B\n")?;
    let found = programmes_refusal(rt.alloc(), PROGRAMMES, text.as_bytes())?;
    assert_eq!(rt; found, fault(Table::Programmes, 50_002, Cause::TooMany));
    Ok(())
}
