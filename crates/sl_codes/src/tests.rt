use super::*;
use csv::ByteRecord;
use sl_io::{MemSink, WriteError};
use std::test::Fail;

#[test]
fn numbers_in_first_seen_order(rt: HostRuntime) -> Result<(), Fail> {
    let mut codes = Codes::new(rt.alloc());
    assert_eq!(rt; codes.is_empty(), true);
    for (code, answer) in [
        ("B", (0, true)),
        ("A", (1, true)),
        ("B", (0, false)),
        ("", (2, true)),
        ("Á-1", (3, true)),
    ] {
        assert!(rt; codes.len() < 100);
        assert_eq!(rt; codes.add(code)?, answer, "at {code}");
    }
    assert_eq!(rt; codes.len(), 4);
    assert_eq!(rt; codes.find("A"), Some(1));
    assert_eq!(rt; codes.find("a"), None);
    assert_eq!(rt; codes.text(3), "Á-1");
    assert_eq!(rt; codes.find_bytes("Á-1".as_bytes()), Some(3));
    assert_eq!(rt; codes.find_bytes(b"\xC1-1"), None);
    Ok(())
}

#[test]
fn records_are_those_of_csv(rt: HostRuntime) -> Result<(), Fail> {
    // A mark, CRLF, a blank line, quotes, a lone CR, an open quote at the end.
    let text = b"\xEF\xBB\xBFa,b\r\n\r\n\"x,\"\"y\"\"\",\"\"\r\"q\"r,s\"t\n\"\"\n\"u\n,v";
    let mut records = Records::new(rt.alloc(), text);
    let mut row = ByteRecord::new(rt.alloc());
    for fields in [
        ["a", "b"].as_slice(),
        ["x,\"y\"", ""].as_slice(),
        ["qr", "s\"t"].as_slice(),
        [""].as_slice(),
        ["u\n,v"].as_slice(),
    ] {
        assert_eq!(rt; records.next(&mut row)?, true);
        assert_eq!(rt; has_fields(&row, fields), true);
    }
    for _ in 0..2 {
        assert_eq!(rt; records.next(&mut row)?, false);
    }
    Ok(())
}

#[test]
fn fields_that_differ(rt: HostRuntime) -> Result<(), Fail> {
    let mut records = Records::new(rt.alloc(), b"a,b\n");
    let mut row = ByteRecord::new(rt.alloc());
    assert_eq!(rt; records.next(&mut row)?, true);
    for fields in [
        ["a"].as_slice(),
        ["a", "c"].as_slice(),
        ["a", "b", ""].as_slice(),
    ] {
        assert_eq!(rt; has_fields(&row, fields), false);
    }
    Ok(())
}

#[test]
fn numbers(rt: HostRuntime) -> Result<(), Fail> {
    for (field, value) in [
        (b"0".as_slice(), Ok(0)),
        (b"000000007".as_slice(), Ok(7)),
        (b"999999999".as_slice(), Ok(999_999_999)),
        (b"".as_slice(), Err(Cause::BadNumber)),
        (b"+1".as_slice(), Err(Cause::BadNumber)),
        (b"1000000000".as_slice(), Err(Cause::BadNumber)),
        (b"1\xFF".as_slice(), Err(Cause::BadNumber)),
    ] {
        assert_eq!(rt; number_within(field, 0, 999_999_999), value);
    }
    assert_eq!(rt; number_within(b"4", 5, 6), Err(Cause::BadNumber));
    assert_eq!(rt; number_within(b"5", 5, 6), Ok(5));
    assert_eq!(rt; number_within(b"7", 5, 6), Err(Cause::BadNumber));
    Ok(())
}

#[test]
fn names(rt: HostRuntime) -> Result<(), Fail> {
    assert_eq!(rt; Table::Results.word(), "result");
    assert_eq!(rt; Table::Amendments.word(), "amendments");
    assert_eq!(rt; Cause::NotText.name(), "NotText");
    assert_eq!(rt; Cause::NoEnd.name(), "NoEnd");
    Ok(())
}

#[test]
fn prints_records(rt: HostRuntime) -> Result<(), Fail> {
    for (fields, text) in [
        (["admit", "y", "2", "a"], "admit,y,2,a\n"),
        (["", "", "", ""], ",,,\n"),
        (
            ["ELTE IK, nappali", "2", "", "score"],
            "\"ELTE IK, nappali\",2,,score\n",
        ),
        (["a\"b", "\"", ";", " x "], "\"a\"\"b\",\"\"\"\",;, x \n"),
    ] {
        let [first, second, third, fourth] = fields;
        let mut out = MemSink::new(rt.alloc(), 100)?;
        let record = [
            Field::Text(first),
            Field::Text(second),
            Field::Text(third),
            Field::Text(fourth),
        ];
        put_record(rt.alloc(), &record, &mut out)?;
        assert_eq!(rt; out.bytes(), text.as_bytes(), "at {text}");
    }
    Ok(())
}

#[test]
fn prints_numbers_and_records_of_any_width(rt: HostRuntime) -> Result<(), Fail> {
    let mut buffer = Vec::new(rt.alloc());
    let mut out = MemSink::new(rt.alloc(), 100)?;
    let mut printer = Printer::new(&mut buffer, &mut out);
    printer.print(&[Field::Number(0)])?;
    printer.print(&[Field::Text("a"), Field::Number(1_000_001)])?;
    printer.print(&[Field::Text("b"), Field::Text(""), Field::Text("c")])?;
    printer.flush()?;
    assert_eq!(rt; out.bytes(), b"0\na,1000001\nb,,c\n".as_slice());
    Ok(())
}

#[test]
fn a_narrow_sink_takes_a_part(rt: HostRuntime) -> Result<(), Fail> {
    let mut out = MemSink::new(rt.alloc(), 5)?;
    let record = [Field::Text("limit"), Field::Text("A")];
    let answer = put_record(rt.alloc(), &record, &mut out);
    assert_eq!(rt; answer, Err(WriteError::Fault));
    assert_eq!(rt; out.bytes(), b"limit".as_slice());
    Ok(())
}

#[test]
fn shown_to_people(rt: HostRuntime) -> Result<(), Fail> {
    let fault = TableFault {
        table: Table::Results,
        at: 12,
        cause: Cause::AfterEnd,
    };
    assert_eq!(rt;
        format!(in rt.alloc(); "{}", ReadError::Bad(fault))?.as_str(),
        "result:12: AfterEnd"
    );
    assert_eq!(rt;
        format!(in rt.alloc(); "{}", RowError::Bad(Cause::NotText))?.as_str(),
        "NotText"
    );
    assert_eq!(rt;
        format!(in rt.alloc(); "{}", ReadError::OutOfMemory)?.as_str(),
        "out of memory"
    );
    Ok(())
}
