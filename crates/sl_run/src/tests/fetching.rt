ghost use Rattle.std.specs.Prelude.{◌≡◌};

use super::*;
use sl_io::{FetchError, Shelf};

// A shelf in memory that notes each name that it is asked for.
#[derive(Drop)]
struct NotedShelf {
    inner: MemShelf,
    asked: Vec<String>,
    alloc: Global,
}

impl NotedShelf {
    fn note(&mut self, name: &str) -> Result<(), AllocError>
        ensures { self.new.inner ≡ self.old.inner }
    {
        let name = String::from_str(self.alloc, name)?;
        self.asked.push(name)?;
        Ok(())
    }
}

impl Shelf for NotedShelf {
    ghost use Rattle.sl_io.specs.MemFiles.{told};

    ghost files = { λ s. told s.inner };

    #[tactic(auto, using(crate::proofs::Accepting::keeps_itself))]
    fn fetch(&mut self, name: &str, into: &mut Vec<u8>) -> Result<(), FetchError> {
        self.note(name)?;
        self.inner.fetch(name, into)
    }
}

const ORDER: [&str; 4] = ["pools", "programmes", "applications", "result"];

fn are_names(asked: &[String], wanted: &[&str]) -> bool {
    asked.len() == wanted.len()
        && asked
            .iter()
            .zip(wanted.iter())
            .all(|(name, word)| name.as_str() == *word)
}

// Runs a command over "displaced twice" and tells whether it asked for just these names, in this order.
fn expect_asked<R: Abort + AllocGlobal + Threads + Sync>(
    rt: &R,
    words: &[&str],
    fails: &[u64],
    wanted: &[&str],
) -> Result<(), Fail> {
    let words = words_of(rt.alloc(), words)?;
    let inputs = Inputs {
        fails,
        ..displaced()
    };
    let mut shelf = NotedShelf {
        inner: shelf_of(rt.alloc(), inputs)?,
        asked: Vec::new(rt.alloc()),
        alloc: rt.alloc(),
    };
    let mut out = MemSink::new(rt.alloc(), 1000)?;
    let mut err = MemSink::new(rt.alloc(), 1000)?;
    let ended = run(
        rt,
        rt.alloc(),
        &words,
        &mut shelf,
        &mut out,
        &mut err,
        &OpenGate,
    );
    assert_eq!(rt; ended.status, if fails.is_empty() { 0 } else { 4 });
    assert!(rt; are_names(&shelf.asked, wanted));
    Ok(())
}

// Each file is fetched once, in the order of the words, and none after one that fails.
#[test]
fn fetches_in_order(rt: HostRuntime) -> Result<(), Fail> {
    expect_asked(&rt, &CLEAR, &[], &ORDER[..3])?;
    expect_asked(&rt, &CHECK, &[], &ORDER)?;
    for call in 1..5 {
        expect_asked(&rt, &CHECK, &[call as u64], &ORDER[..call])?;
        if call < 4 {
            expect_asked(&rt, &CLEAR, &[call as u64], &ORDER[..call])?;
        }
    }
    Ok(())
}
