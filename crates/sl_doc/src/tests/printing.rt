ghost use Rattle.std.specs.Prelude.{◌≡◌, ◌≢◌, true, IfOk};
ghost use Rattle.std.specs.List.{list_all};
ghost use Rattle.sl_codes.specs.Fields.{is_code};
ghost use Rattle.sl_doc.specs.Document.{IsInRange};
ghost use Rattle.sl_doc.specs.VerdictText.{NamesWithin};

use super::*;

// Each field of a text in quotes, each line with both line ends, behind a byte order mark.
fn quoted(alloc: Global) -> Result<String, AllocError> {
    let mut text = String::from_str(alloc, "\u{FEFF}")?;
    for line in DISPLACED.lines() {
        for (place, field) in line.split(',').enumerate() {
            text.push_str(if place == 0 { "\"" } else { ",\"" })?;
            text.push_str(field)?;
            text.push_str("\"")?;
        }
        text.push_str("\r\n")?;
    }
    Ok(text)
}

// Reads a document, and prints it to a sink with so much room.
fn expect_printed<R: Abort + AllocGlobal>(
    rt: &R,
    named: &Named,
    text: &str,
    rule: Rule,
    wanted: &str,
) -> Result<(), Fail>
    requires { rule ≢ Rule.Merit }
{
    let doc = read(rt.alloc(), text.as_bytes(), named, rule)?;
    let mut out = MemSink::new(rt.alloc(), 1000)?;
    assert_eq!(rt; doc_text(rt.alloc(), named, rule, &doc, &mut out), Ok(()));
    assert_eq!(rt; out.bytes(), wanted.as_bytes());
    Ok(())
}

// With one record in another form.
fn expect_changed<R: Abort + AllocGlobal>(
    rt: &R,
    named: &Named,
    at: usize,
    record: &str,
) -> Result<(), Fail> {
    let text = changed(rt.alloc(), at, record)?;
    expect_printed(rt, named, &text, Rule::H, DISPLACED)
}

fn expect_quoted<R: Abort + AllocGlobal>(rt: &R, named: &Named) -> Result<(), Fail> {
    let text = quoted(rt.alloc())?;
    expect_printed(rt, named, &text, Rule::H, DISPLACED)
}

#[test]
fn other_forms_read_alike(rt: HostRuntime) -> Result<(), Fail> {
    let named = displaced_twice(rt.alloc())?;
    expect_printed(&rt, &named, DISPLACED, Rule::H, DISPLACED)?;
    expect_quoted(&rt, &named)?;
    expect_changed(&rt, &named, 3, "\n\nlimit,A,000000011,01\r")?;
    expect_changed(&rt, &named, 5, "admit,x,000,\"\"")?;
    expect_changed(&rt, &named, 11, "end,00010,,\"\"")
}

const QUOTED: &str = "\
result,1,,\n\
rule,L,,\n\
limit,\"ELTE IK, nappali\",453,1\n\
limit,\"He said \"\"no\"\"\",448,0\n\
admit,\u{C1}-71001,0,\n\
admit,\"\"\"q\"\"\",2,ELTE-PTI\n\
admit,z,1,\"BME,INF\"\n\
raise,\"He said \"\"no\"\"\",448,\n\
end,8,,\n";

#[test]
fn codes_that_need_quotes(rt: HostRuntime) -> Result<(), Fail> {
    let named = quoted_codes(rt.alloc())?;
    expect_printed(&rt, &named, QUOTED, Rule::L, QUOTED)
}

// Prints a document to a sink with so much room: it takes the first bytes.
fn expect_broken<R: Abort + AllocGlobal>(
    rt: &R,
    named: &Named,
    rule: Rule,
    doc: &Doc,
    text: &[u8],
    room: usize,
) -> Result<(), Fail>
    requires in_range { IsInRange named.now doc.now }
    requires letter { rule ≢ Rule.Merit }
{
    let mut out = MemSink::new(rt.alloc(), room)?;
    let found = doc_text(rt.alloc(), named, rule, doc, &mut out);
    let wanted = if room < text.len() {
        Err(WriteError::Fault)
    } else {
        Ok(())
    };
    assert_eq!(rt; found, wanted);
    assert!(rt; Some(out.bytes()) == text.get(..room));
    Ok(())
}

fn expect_all_broken<R: Abort + AllocGlobal>(rt: &R, named: &Named, doc: &Doc) -> Result<(), Fail>
    requires { IsInRange named.now doc.now }
{
    let text = DISPLACED.as_bytes();
    for room in 0..text.len() {
        expect_broken(rt, named, Rule::H, doc, text, room)?;
    }
    Ok(())
}

#[test]
fn narrow_sinks(rt: HostRuntime) -> Result<(), Fail> {
    let named = displaced_twice(rt.alloc())?;
    let doc = read(rt.alloc(), DISPLACED.as_bytes(), &named, Rule::H)?;
    expect_all_broken(&rt, &named, &doc)
}

fn numbered_codes(alloc: Global, count: usize) -> Result<Codes, Fail>
    ensures { IfOk result (λ codes. list_all is_code codes ≡ true) }
{
    let mut codes = Codes::new(alloc);
    for number in 0..count {
        let text = format!(in alloc; "n{number}")?;
        add(&mut codes, &text)?;
    }
    Ok(codes)
}

// Many applicants who each chose the first programme.
fn many(alloc: Global, count: usize) -> Result<Named, Fail> {
    let mut lists = Vec::new(alloc);
    for _ in 0..count {
        lists.push(vec![in alloc; choice(1, 0, 10)]?)?;
    }
    let instance = instance(alloc, lists)?;
    let pools = codes_of(alloc, &["A", "B"])?;
    let progs = codes_of(alloc, &["a", "b"])?;
    let apps = numbered_codes(alloc, count)?;
    join(instance, pools, progs, apps)
}

// The document of many applicants, all admitted.
fn long_text(alloc: Global, count: usize) -> Result<String, Fail> {
    let mut text = String::from_str(alloc, "result,1,,\nrule,L,,\nlimit,A,0,4000\nlimit,B,0,0\n")?;
    for number in 0..count {
        write!(text, "admit,n{number},1,a\n")?;
    }
    text.push_str("end,4004,,\n")?;
    Ok(text)
}

// A document that is longer than what is held back.
#[test]
fn a_long_document(rt: HostRuntime) -> Result<(), Fail> {
    let named = many(rt.alloc(), 4000)?;
    let text = long_text(rt.alloc(), 4000)?;
    let bytes = text.as_bytes();
    let doc = read(rt.alloc(), bytes, &named, Rule::L)?;
    expect_broken(&rt, &named, Rule::L, &doc, bytes, bytes.len())?;
    expect_broken(&rt, &named, Rule::L, &doc, bytes, 40_000)
}

// Whether the pool or the applicant that a verdict names is there.
fn names_within(named: &Named, verdict: Verdict) -> bool
    ensures { result ≡ true → NamesWithin named.now verdict }
{
    let pools = named.instance().pools() as u32;
    let applicants = named.instance().applicants() as u32;
    match verdict {
        Verdict::Yes | Verdict::RaiseUnjust(_) => true,
        Verdict::Unsettled(pool) | Verdict::LimitWrong(pool) | Verdict::CountWrong(pool) => {
            pool.0 < pools
        }
        Verdict::AdmissionWrong(app) => app.0 < applicants,
    }
}

const VERDICTS: [(Verdict, &str); 6] = [
    (Verdict::Yes, "verdict,Yes,,\n"),
    (
        Verdict::RaiseUnjust(4_294_967_295),
        "verdict,RaiseUnjust,4294967295,\n",
    ),
    (
        Verdict::Unsettled(B),
        "verdict,Unsettled,\"He said \"\"no\"\"\",\n",
    ),
    (
        Verdict::LimitWrong(A),
        "verdict,LimitWrong,\"ELTE IK, nappali\",\n",
    ),
    (
        Verdict::AdmissionWrong(AppId(0)),
        "verdict,AdmissionWrong,\u{C1}-71001,\n",
    ),
    (
        Verdict::CountWrong(A),
        "verdict,CountWrong,\"ELTE IK, nappali\",\n",
    ),
];

fn expect_verdict<R: Abort + AllocGlobal>(
    rt: &R,
    named: &Named,
    verdict: Verdict,
    text: &str,
) -> Result<(), Fail> {
    assert!(rt; names_within(named, verdict));
    let mut out = MemSink::new(rt.alloc(), 100)?;
    assert_eq!(rt; verdict_text(rt.alloc(), named, &verdict, &mut out), Ok(()));
    assert_eq!(rt; out.bytes(), text.as_bytes());
    let mut narrow = MemSink::new(rt.alloc(), 9)?;
    let found = verdict_text(rt.alloc(), named, &verdict, &mut narrow);
    assert_eq!(rt; found, Err(WriteError::Fault));
    assert_eq!(rt; Some(narrow.bytes()), text.as_bytes().get(..9));
    Ok(())
}

fn expect_verdicts<R: Abort + AllocGlobal>(rt: &R, named: &Named) -> Result<(), Fail> {
    for (verdict, text) in &VERDICTS {
        expect_verdict(rt, named, *verdict, text)?;
    }
    Ok(())
}

#[test]
fn verdicts(rt: HostRuntime) -> Result<(), Fail> {
    let named = quoted_codes(rt.alloc())?;
    expect_verdicts(&rt, &named)
}

// What a look saw where the look before saw so much, printed to a sink with so much room.
fn expect_seen<R: Abort + AllocGlobal>(
    rt: &R,
    named: &Named,
    before: [u32; 2],
    room: usize,
    text: &str,
) -> Result<(), Fail> {
    assert_eq!(rt; named.instance().pools(), 2);
    let mut out = MemSink::new(rt.alloc(), room)?;
    let found = seen_text(rt.alloc(), named, 100, &before, &[453, 448], &mut out);
    assert_eq!(rt; found.is_err(), text.len() == room);
    assert_eq!(rt; out.bytes(), text.as_bytes());
    Ok(())
}

#[test]
fn looks(rt: HostRuntime) -> Result<(), Fail> {
    let named = quoted_codes(rt.alloc())?;
    for (before, room, text) in [
        (
            [0, 0],
            100,
            "seen,100,\"ELTE IK, nappali\",453\nseen,100,\"He said \"\"no\"\"\",448\n",
        ),
        ([453, 447], 100, "seen,100,\"He said \"\"no\"\"\",448\n"),
        ([453, 448], 100, ""),
        ([452, 448], 12, "seen,100,\"EL"),
    ] {
        expect_seen(&rt, &named, before, room, text)?;
    }
    Ok(())
}
