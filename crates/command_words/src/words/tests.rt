use super::*;
use scenario_toml::{Choice, Strategy};
use std::test::Fail;

const JOBS: [Job; 8] = [
    Job::Order,
    Job::Draws,
    Job::Plan,
    Job::Profile,
    Job::Check,
    Job::Make,
    Job::Run,
    Job::Replay,
];

const NOTHING: Choice = Choice {
    strategy: None,
    seed: None,
    depth: None,
};

fn words_of(alloc: Global, texts: &[&str]) -> Result<Vec<String>, Fail> {
    let mut words = Vec::new(alloc);
    for text in texts {
        words.push(String::from_str(alloc, text)?)?;
    }
    Ok(words)
}

// A job over a name, and nothing else.
fn plain<'a>(job: Job, name: &'a str) -> Ask<'a> {
    Ask {
        job,
        name,
        saved: None,
        save: None,
        choice: NOTHING,
        number: 0,
    }
}

fn seeded<'a>(job: Job, name: &'a str, seed: u64) -> Ask<'a> {
    let choice = Choice {
        strategy: None,
        seed: Some(seed),
        depth: None,
    };
    Ask {
        choice,
        ..plain(job, name)
    }
}

fn saved_to<'a>(save: &'a str) -> Ask<'a> {
    Ask {
        save: Some(save),
        ..plain(Job::Plan, "f")
    }
}

fn made<'a>(name: &'a str, number: u64) -> Ask<'a> {
    Ask {
        number,
        ..plain(Job::Make, name)
    }
}

#[test]
fn words_are_taken(rt: HostRuntime) -> Result<(), Fail> {
    let chosen = Choice {
        strategy: Some(Strategy::Pct),
        seed: None,
        depth: Some(16),
    };
    let replayed = Ask {
        saved: Some("s"),
        ..plain(Job::Replay, "f")
    };
    let planned = Ask {
        choice: chosen,
        ..saved_to("p")
    };
    let cases: [(&[&str], Ask); 13] = [
        (&["run", "f"], plain(Job::Run, "f")),
        (&["run", "f", "--seed", "5"], seeded(Job::Run, "f", 5)),
        (&["run", "f", "--seed=007"], seeded(Job::Run, "f", 7)),
        (&["--seed=5", "run", "f"], seeded(Job::Run, "f", 5)),
        (
            &[
                "plan",
                "f",
                "--save",
                "p",
                "--strategy",
                "pct",
                "--depth",
                "16",
            ],
            planned,
        ),
        (&["plan", "f", "--save="], saved_to("")),
        (&["plan", "f", "--save=-x"], saved_to("-x")),
        (&["order", "-"], plain(Job::Order, "-")),
        (&["order", "--", "--seed"], plain(Job::Order, "--seed")),
        (&["order", ""], plain(Job::Order, "")),
        (&["replay", "f", "s"], replayed),
        (
            &["make", "18446744073709551615"],
            made("18446744073709551615", u64::MAX),
        ),
        (
            &["make", "00000000000000000001"],
            made("00000000000000000001", 1),
        ),
    ];
    for (texts, ask) in cases {
        let words = words_of(rt.alloc(), texts)?;
        assert_eq!(rt;
            read_words(rt.alloc(), &JOBS, words.as_slice()),
            Ok(ask),
            "{texts:?}"
        );
    }
    Ok(())
}

#[test]
fn words_are_refused(rt: HostRuntime) -> Result<(), Fail> {
    let cases: [&[&str]; 31] = [
        &[],
        &["run"],
        &["run", "f", "g"],
        &["replay", "f"],
        &["replay", "f", "s", "t"],
        &["run", "f", "--seed", "5", "--seed", "6"],
        &["run", "f", "--seed", "-1"],
        &["run", "f", "--seed=-5"],
        &["run", "f", "--save", "-x"],
        &["run", "f", "--see=5"],
        &["run", "-f"],
        &["run", "f", "-s"],
        &["--help"],
        &["-h"],
        &["run", "f", "--version"],
        &["run", "f", "-V"],
        &["help", "f"],
        &["order", "f", "--seed", "1"],
        &["profile", "f", "--depth", "1"],
        &["check", "f", "--save", "p"],
        &["run", "f", "--depth", "0"],
        &["run", "f", "--depth", "17"],
        &["run", "f", "--strategy", "sruw"],
        &["run", "f", "--strategy", "SURW"],
        &["run", "f", "--seed", "18446744073709551616"],
        &["run", "f", "--seed", "000000000000000000001"],
        &["run", "f", "--seed="],
        &["make", "x"],
        &["make", "-1"],
        &["Run", "f"],
        &["run", "f", "--seed"],
    ];
    for texts in cases {
        let words = words_of(rt.alloc(), texts)?;
        assert_eq!(rt;
            read_words(rt.alloc(), &JOBS, words.as_slice()),
            Err(WordFault::Form),
            "{texts:?}"
        );
    }
    Ok(())
}
