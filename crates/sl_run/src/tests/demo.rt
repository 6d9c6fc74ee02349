use super::*;

const SMALLEST: &str = "demo,pools,8,\ndemo,applicants,1,\ndemo,applications,1,\ndemo,admitted,1,\n\
    demo,limits,0,\ndemo,places,1,\nend,6,,\n";

// A demo fetches no file: each fetch would fail.
fn unread() -> Inputs<'static> {
    Inputs {
        fails: &[1, 2, 3, 4],
        ..displaced()
    }
}

#[test]
fn smallest_demo(rt: HostRuntime) -> Result<(), Fail> {
    for workers in ["1", "007", "64"] {
        let words = ["demo", "1", workers];
        expect(&rt, workers, &words, unread(), done(SMALLEST))?;
    }
    let narrow = Ending {
        room: 20,
        status: 5,
        out: "demo,pools,8,\ndemo,a",
        err: "output: cannot be written\n",
    };
    expect(&rt, "narrow sink", &["demo", "1", "1"], unread(), narrow)
}

// Found apart from this program, by counting over all applicants for each pool, as is defined.
const THOUSAND: &str = "demo,pools,24,\ndemo,applicants,1000,\ndemo,applications,3496,\n\
    demo,admitted,525,\ndemo,limits,4838253,\ndemo,places,990,\nend,6,,\n";

#[test]
fn same_demo_with_any_workers(rt: HostRuntime) -> Result<(), Fail> {
    for workers in ["1", "2", "8"] {
        let words = ["demo", "1000", workers];
        expect(&rt, workers, &words, unread(), done(THOUSAND))?;
    }
    Ok(())
}
