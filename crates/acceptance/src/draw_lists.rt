use crate::command::job_of_text;
use std::alloc::Global;
use std::process::Abort;
use std::test::Fail;
use surw_cli::Status;

// A thread that adds one to cell 1, and then one to cell 0 by a load and a store.
const ADDS: &str = "\
[[thread]]
kind = \"steps\"
lines = [\"add 1 1\", \"load 0 -> r0\", \"plus r0 1\", \"store 0 r0\", \"add 1 1\"]
";

// A thread that stores 7 in cell 0 after a load of cell 1.
const STORES: &str = "\
[[thread]]
kind = \"steps\"
lines = [\"load 1\", \"store 0 7\"]
";

// How often an order was seen.
#[derive(Debug, Drop)]
struct Seen {
    order: Vec<u8>,
    times: u32,
}

// The line of a report that begins with `order`.
fn order_line(report: &[u8]) -> Option<&[u8]> {
    for line in report.split(|byte| *byte == b'\n') {
        if line.starts_with(b"order") {
            return Some(line);
        }
    }
    None
}

// The order of the run of these threads with four draws, and with these other draws.
fn order_of(
    alloc: Global,
    counts: &str,
    threads: &str,
    draws: [u64; 4],
    others: &str,
) -> Result<Vec<u8>, Fail> {
    let [first, second, third, fourth] = draws;
    let file = format!(in alloc;
        "select = [\"cell 0\"]\ncounts = {counts}\nworld.cells = 2\ntapes.selected = [{first}, {second}, {third}, {fourth}]\ntapes.other = {others}\n{threads}"
    )?;
    let (status, out) = job_of_text(alloc, "plan", file.as_str())?;
    if status != Status::Done {
        return Err("the run hasn't ended".into());
    }
    let line = order_line(out.taken()).ok_or("no order")?;
    Ok(Vec::from_slice(alloc, line)?)
}

// Notes an order that was seen.
fn note(seen: &mut Vec<Seen>, order: Vec<u8>) -> Result<(), Fail> {
    for known in seen.iter_mut() {
        if known.order.as_slice() == order.as_slice() {
            known.times = known.times.saturating_add(1);
            return Ok(());
        }
    }
    seen.push(Seen { order, times: 1 })?;
    Ok(())
}

// The orders of the runs on all draw lists of four.
fn orders_of(alloc: Global, counts: &str, threads: &str, others: &str) -> Result<Vec<Seen>, Fail> {
    let mut seen = Vec::new(alloc);
    for first in 0..4 {
        for second in 0..3 {
            for third in 0..2 {
                let order = order_of(alloc, counts, threads, [first, second, third, 0], others)?;
                note(&mut seen, order)?;
            }
        }
    }
    Ok(seen)
}

// Asserts that there are so many orders, and each was seen so many times, whatever the other draws are.
fn assert_equally_often(
    rt: &impl Abort,
    alloc: Global,
    counts: &str,
    threads: &str,
    orders: usize,
    times: u32,
) -> Result<(), Fail> {
    for others in ["[]", "[1, 2, 0, 5, 3, 1, 1]", "[9, 8, 7, 6, 5, 4, 3, 2, 1]"] {
        let seen = orders_of(alloc, counts, threads, others)?;
        assert_eq!(rt; seen.len(), orders, "{counts} {others}");
        for order in seen.iter() {
            assert_eq!(rt; order.times, times, "{counts} {others}");
        }
    }
    Ok(())
}

#[test]
fn each_order_comes_on_equally_many_draw_lists(rt: HostRuntime) -> Result<(), Fail> {
    let alloc = rt.alloc();
    let two = format!(in alloc; "{ADDS}{ADDS}")?;
    assert_equally_often(&rt, alloc, "[2, 2]", two.as_str(), 6, 4)?;
    let three = format!(in alloc; "{ADDS}{STORES}{STORES}")?;
    assert_equally_often(&rt, alloc, "[2, 1, 1]", three.as_str(), 12, 2)
}
