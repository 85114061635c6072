use crate::{ScenarioFault, read_scenario};
use std::alloc::{AllocError, Global};
use std::process::Abort;
use std::test::Fail;

// A thread without a fault, and the head of a second one.
const FIRST: &str = "[[thread]]\nkind = 'adder'\ncell = 0\n[[thread]]\n";

// The same with the kind of the second one.
const STEPS_HEAD: &str = "[[thread]]\nkind = 'adder'\ncell = 0\n[[thread]]\nkind = 'steps'\n";

const ADDER_HEAD: &str = "[[thread]]\nkind = 'adder'\ncell = 0\n[[thread]]\nkind = 'adder'\n";

const CACHE_USER_HEAD: &str =
    "[[thread]]\nkind = 'adder'\ncell = 0\n[[thread]]\nkind = 'cache_user'\n";

const FLUSHER_HEAD: &str = "[[thread]]\nkind = 'adder'\ncell = 0\n[[thread]]\nkind = 'flusher'\n";

const LOG_WRITER_HEAD: &str =
    "[[thread]]\nkind = 'adder'\ncell = 0\n[[thread]]\nkind = 'log_writer'\n";

fn text(bytes: &[u8]) -> &str {
    std::str::from_utf8(bytes).unwrap_or("no text")
}

// A fault in words.
fn line(alloc: Global, fault: &ScenarioFault) -> Result<String, AllocError> {
    match fault {
        ScenarioFault::NotToml => String::from_str(alloc, "not_toml"),
        ScenarioFault::Missing { key } => format!(in alloc; "missing {}", text(key.as_bytes())),
        ScenarioFault::WrongKind { key } => {
            format!(in alloc; "wrong_kind {}", text(key.as_bytes()))
        }
        ScenarioFault::Unknown { key } => format!(in alloc; "unknown {}", text(key.as_bytes())),
        ScenarioFault::Range {
            key,
            kept,
            least,
            most,
        } => { format!(in alloc; "range {} {kept} {least} {most}", text(key.as_bytes())) }
        ScenarioFault::Name { key, text: word } => {
            format!(in alloc; "name {} {}", text(key.as_bytes()), text(word.as_bytes()))
        }
        ScenarioFault::OutOfMemory => String::from_str(alloc, "out_of_memory"),
    }
}

// What a file is answered with: its fault in words, or `taken`.
fn answer(alloc: Global, file: &[u8]) -> Result<String, AllocError> {
    match read_scenario(alloc, file) {
        Ok(_) => String::from_str(alloc, "taken"),
        Err(fault) => line(alloc, &fault),
    }
}

// A file of these keys, which a semicolon parts.
fn file_of(alloc: Global, prefix: &str, keys: &str) -> Result<String, AllocError> {
    let mut file = String::from_str(alloc, prefix)?;
    for key in keys.split(';') {
        file.push_str(key)?;
        file.push_str("\n")?;
    }
    Ok(file)
}

// Each line of a table has keys and, behind an arrow, what a file of them is answered with.
fn assert_answers(rt: &impl Abort, alloc: Global, prefix: &str, table: &str) -> Result<(), Fail> {
    for row in table.lines() {
        let (keys, due) = row.split_once(" => ").unwrap_or((row, "no arrow"));
        let file = file_of(alloc, prefix, keys)?;
        assert_eq!(rt; answer(alloc, file.as_bytes())?.as_str(), due, "{row}");
    }
    Ok(())
}

// An array of so many items between two parts of a file, and what the file is answered with.
#[derive(Clone, Copy)]
struct Long {
    prefix: &'static str,
    item: &'static str,
    times: u32,
    back: &'static str,
    due: &'static str,
}

// The file with the array.
fn long_file(alloc: Global, prefix: &str, row: &Long) -> Result<String, AllocError> {
    let mut file = String::from_str(alloc, prefix)?;
    file.push_str(row.prefix)?;
    for _place in 0..row.times {
        file.push_str(row.item)?;
    }
    file.push_str(row.back)?;
    Ok(file)
}

fn assert_lengths(
    rt: &impl Abort,
    alloc: Global,
    prefix: &str,
    table: &[Long],
) -> Result<(), Fail> {
    for row in table {
        let file = long_file(alloc, prefix, row)?;
        assert_eq!(rt;
            answer(alloc, file.as_bytes())?.as_str(),
            row.due,
            "{} {}",
            row.item,
            row.times
        );
    }
    Ok(())
}

const STEPS_AND_STRATEGY: &str = " => taken
cels = 1 => unknown cels
max_steps = 0; zz = 1; mm = 1; nn = 1 => unknown mm
max_steps = '1' => wrong_kind max_steps
max_steps = -1 => range max_steps -1 1 65536
max_steps = 0 => range max_steps 0 1 65536
max_steps = 1 => taken
max_steps = 65536 => taken
max_steps = 65537 => range max_steps 65537 1 65536
strategy = 1 => wrong_kind strategy
strategy = 'sruw'; seed = '7' => name strategy sruw
strategy = 'URW' => name strategy URW
strategy = 'urw' => taken
strategy = 'surw' => taken
strategy = 'pct' => taken
strategy = 'plain' => taken
";

#[test]
fn faults_of_the_steps_and_the_strategy(rt: HostRuntime) -> Result<(), Fail> {
    assert_answers(&rt, rt.alloc(), "", STEPS_AND_STRATEGY)
}

const SEED_AND_DEPTH: &str = "seed = '7' => wrong_kind seed
seed = -1 => range seed -1 0 9223372036854775807
seed = 0 => taken
seed = 9223372036854775807 => taken
depth = 1.0 => wrong_kind depth
depth = 0 => range depth 0 1 16
depth = 1 => taken
depth = 16 => taken
depth = 17 => range depth 17 1 16
";

#[test]
fn faults_of_the_seed_and_the_depth(rt: HostRuntime) -> Result<(), Fail> {
    assert_answers(&rt, rt.alloc(), "", SEED_AND_DEPTH)
}

const SELECTION: &str = "select = 'all' => wrong_kind select
select = [1] => wrong_kind select.0
select = ['all', 'lok'] => name select.1 lok
select = [] => taken
select = ['all', 'lock', 'cell', 'cache', 'disk', 'log', 'check'] => taken
select = ['lock 0', 'lock 18446744073709551615'] => taken
select = ['cell 0', 'cell 18446744073709551615'] => taken
select = ['lock 18446744073709551616'] => name select.0 lock 18446744073709551616
select = ['cell 18446744073709551616'] => name select.0 cell 18446744073709551616
select = ['lock 01'] => name select.0 lock 01
select = ['cell  1'] => name select.0 cell  1
select = ['disk 1'] => name select.0 disk 1
";

#[test]
fn faults_of_the_selection(rt: HostRuntime) -> Result<(), Fail> {
    assert_answers(&rt, rt.alloc(), "", SELECTION)
}

const COUNTS: &str = "counts = 1 => wrong_kind counts
counts = 'profile' => taken
counts = 'profiles' => name counts profiles
counts = 'Profile' => name counts Profile
counts = '' => name counts\x20
counts = [1, true] => wrong_kind counts.1
counts = [-1] => range counts.0 -1 0 65536
counts = [0, 65536] => range counts 2 0 0
counts = [65537] => range counts.0 65537 0 65536
";

#[test]
fn faults_of_the_counts(rt: HostRuntime) -> Result<(), Fail> {
    assert_answers(&rt, rt.alloc(), "", COUNTS)
}

const MONITORS: &str = "monitors = 'expect' => wrong_kind monitors
monitors = [1] => wrong_kind monitors.0
monitors = ['expect', 'expct'] => name monitors.1 expct
monitors = [] => taken
monitors = ['write_ahead', 'log_whole', 'expect'] => taken
world = 1; monitors = ['cell_end 0 0', 'cell_end 18446744073709551615 18446744073709551615'] => wrong_kind world
monitors = ['cell_end 1'] => name monitors.0 cell_end 1
monitors = ['cell_end 18446744073709551616 0'] => name monitors.0 cell_end 18446744073709551616 0
monitors = ['cell_end 0 18446744073709551616'] => name monitors.0 cell_end 0 18446744073709551616
monitors = ['cell_end 01 0'] => name monitors.0 cell_end 01 0
monitors = ['cell_end 0  1'] => name monitors.0 cell_end 0  1
monitors = ['expect '] => name monitors.0 expect\x20
";

#[test]
fn faults_of_the_monitors(rt: HostRuntime) -> Result<(), Fail> {
    assert_answers(&rt, rt.alloc(), "", MONITORS)
}

const TABLES_AND_TAPES: &str = "world = 1 => wrong_kind world
world = {} => taken
tapes = [] => wrong_kind tapes
tapes = {} => taken
tapes = {}; thread = 1 => wrong_kind thread
tapes = {}; [thread] => wrong_kind thread
tapes = {}; thread = [] => taken
tapes.x = 1; thread = [1] => unknown tapes.x
tapes.x = 1; world.cells = 65 => range world.cells 65 0 64
tapes.selected = []; tapes.other = [] => taken
tapes.selected = 1 => wrong_kind tapes.selected
tapes.selected = [0, '1'] => wrong_kind tapes.selected.1
tapes.selected = [-1] => range tapes.selected.0 -1 0 9223372036854775807
tapes.selected = [0, 9223372036854775807] => taken
tapes.other = {} => wrong_kind tapes.other
tapes.other = [0, 1.5] => wrong_kind tapes.other.1
tapes.other = [-1] => range tapes.other.0 -1 0 9223372036854775807
tapes.other = [0, 9223372036854775807] => taken
tapes.other = 1; tapes.selected = 1 => wrong_kind tapes.selected
";

#[test]
fn faults_of_the_tables_and_the_tapes(rt: HostRuntime) -> Result<(), Fail> {
    assert_answers(&rt, rt.alloc(), "", TABLES_AND_TAPES)
}

const WORLD: &str = "cels = 1; cell = 1 => unknown world.cell
cells = '1' => wrong_kind world.cells
cells = -1 => range world.cells -1 0 64
cells = 0 => taken
cells = 64 => taken
cells = 65 => range world.cells 65 0 64
locks = true => wrong_kind world.locks
locks = -1 => range world.locks -1 0 8
locks = 0 => taken
locks = 8 => taken
locks = 9; cells = 65 => range world.cells 65 0 64
locks = 9 => range world.locks 9 0 8
frames = [] => wrong_kind world.frames
frames = -1 => range world.frames -1 0 64
frames = 65; locks = 9 => range world.locks 9 0 8
frames = 65 => range world.frames 65 0 64
pages = {} => wrong_kind world.pages
pages = -1 => range world.pages -1 0 256
pages = 257; frames = 65 => range world.frames 65 0 64
pages = 257 => range world.pages 257 0 256
slots = 1.5 => wrong_kind world.slots
slots = -1 => range world.slots -1 0 4096
slots = 4097; pages = 257 => range world.pages 257 0 256
slots = 4097 => range world.slots 4097 0 4096
frames = 0; pages = 0; slots = 0 => taken
frames = 64; pages = 256; slots = 4096 => taken
";

#[test]
fn faults_of_the_world(rt: HostRuntime) -> Result<(), Fail> {
    assert_answers(&rt, rt.alloc(), "[world]\n", WORLD)
}

const KIND: &str = "cell = 0 => missing thread.1.kind
kind = 1 => wrong_kind thread.1.kind
kind = 'writer' => name thread.1.kind writer
kind = 'Flusher' => name thread.1.kind Flusher
kind = 'steps'; zz = 1; cell = 1 => unknown thread.1.cell
kind = 'adder'; lines = [] => unknown thread.1.lines
kind = 'cache_user'; value = 0 => unknown thread.1.value
kind = 'flusher'; page = 0 => unknown thread.1.page
kind = 'log_writer'; expect = 0 => unknown thread.1.expect
";

#[test]
fn faults_of_the_kind_of_a_thread(rt: HostRuntime) -> Result<(), Fail> {
    assert_answers(&rt, rt.alloc(), "", "thread = [1] => wrong_kind thread.0")?;
    assert_answers(&rt, rt.alloc(), FIRST, KIND)
}

const LINES: &str = "times = 0 => missing thread.1.lines
lines = 1 => wrong_kind thread.1.lines
lines = ['load 0', 1] => wrong_kind thread.1.lines.1
lines = ['load  0'] => name thread.1.lines.0 load  0
lines = [] => taken
lines = []; times = '1' => wrong_kind thread.1.times
lines = []; times = 0 => range thread.1.times 0 1 4096
lines = []; times = 1 => taken
lines = []; times = 4096 => taken
lines = []; times = 4097 => range thread.1.times 4097 1 4096
";

#[test]
fn faults_of_a_thread_of_lines(rt: HostRuntime) -> Result<(), Fail> {
    assert_answers(&rt, rt.alloc(), STEPS_HEAD, LINES)
}

const ADDER: &str = " => missing thread.1.cell
cell = '0' => wrong_kind thread.1.cell
cell = -1 => range thread.1.cell -1 0 63
cell = 0 => taken
cell = 63 => taken
cell = 64 => range thread.1.cell 64 0 63
cell = 0; tries = 1.0 => wrong_kind thread.1.tries
cell = 0; tries = 0 => range thread.1.tries 0 1 4096
cell = 0; tries = 1 => taken
cell = 0; tries = 4096 => taken
cell = 0; tries = 4097 => range thread.1.tries 4097 1 4096
";

#[test]
fn faults_of_a_thread_that_adds(rt: HostRuntime) -> Result<(), Fail> {
    assert_answers(&rt, rt.alloc(), ADDER_HEAD, ADDER)
}

const CACHE_USER: &str = "expect = '0' => missing thread.1.page
page = '0' => wrong_kind thread.1.page
page = -1 => range thread.1.page -1 0 255
page = 256 => range thread.1.page 256 0 255
page = 0; lock = 8 => missing thread.1.expect
page = 0; expect = true => wrong_kind thread.1.expect
page = 0; expect = -1; lock = 8 => range thread.1.expect -1 0 9223372036854775807
page = 0; expect = 0; lock = [] => wrong_kind thread.1.lock
page = 0; expect = 0; lock = -1 => range thread.1.lock -1 0 7
page = 0; expect = 0; lock = 8 => range thread.1.lock 8 0 7
page = 0; expect = 0; lock = 0 => taken
page = 255; expect = 9223372036854775807; lock = 7 => taken
page = 0; expect = 0 => taken
";

#[test]
fn faults_of_a_thread_that_uses_the_cache(rt: HostRuntime) -> Result<(), Fail> {
    assert_answers(&rt, rt.alloc(), CACHE_USER_HEAD, CACHE_USER)
}

const FLUSHER: &str = "mark_first = 1 => missing thread.1.rounds
rounds = 1.0 => wrong_kind thread.1.rounds
rounds = -1; mark_first = 1 => range thread.1.rounds -1 0 16384
rounds = 16385 => range thread.1.rounds 16385 0 16384
rounds = 0; mark_first = 1 => wrong_kind thread.1.mark_first
rounds = 0; mark_first = 'true' => wrong_kind thread.1.mark_first
rounds = 0; mark_first = false => taken
rounds = 16384; mark_first = true => taken
rounds = 1 => taken
";

#[test]
fn faults_of_a_thread_that_flushes(rt: HostRuntime) -> Result<(), Fail> {
    assert_answers(&rt, rt.alloc(), FLUSHER_HEAD, FLUSHER)
}

const LOG_WRITER: &str = "value = '0' => missing thread.1.page
page = [] => wrong_kind thread.1.page
page = -1 => range thread.1.page -1 0 255
page = 256 => range thread.1.page 256 0 255
page = 0 => missing thread.1.value
page = 0; value = 0.0 => wrong_kind thread.1.value
page = 0; value = -1 => range thread.1.value -1 0 9223372036854775807
page = 0; value = 0 => taken
page = 255; value = 9223372036854775807 => taken
";

#[test]
fn faults_of_a_thread_that_logs(rt: HostRuntime) -> Result<(), Fail> {
    assert_answers(&rt, rt.alloc(), LOG_WRITER_HEAD, LOG_WRITER)
}

const COUNTS_AND_CELLS: &str = "counts = [1]; thread = [1] => wrong_kind thread.0
counts = [1]; monitors = ['cell_end 0 1'] => range counts 1 0 0
monitors = ['expect', 'cell_end 0 1'] => name monitors.1 cell_end 0 1
monitors = ['cell_end 70000 1'] => name monitors.0 cell_end 70000 1
counts = [0]; thread = [{kind = 'adder', cell = 0}] => taken
counts = [65536]; thread = [{kind = 'adder', cell = 0}] => taken
counts = [65536, 1]; thread = [{kind = 'adder', cell = 0}, {kind = 'adder', cell = 0}] => range counts 65537 0 65536
counts = [65535, 1]; thread = [{kind = 'adder', cell = 0}, {kind = 'adder', cell = 0}] => taken
world.cells = 64; monitors = ['cell_end 63 18446744073709551615'] => taken
world.cells = 64; monitors = ['cell_end 64 0'] => name monitors.0 cell_end 64 0
";

#[test]
fn the_counts_come_after_the_threads_and_the_cells_last(rt: HostRuntime) -> Result<(), Fail> {
    assert_answers(&rt, rt.alloc(), "", COUNTS_AND_CELLS)
}

const NO_TOML: &str = "= 1 => not_toml
seed = 1; seed = 1 => not_toml
seed = 9223372036854775808 => not_toml
tapes.selected = [9223372036854775808] => not_toml
tapes.other = [9223372036854775808] => not_toml
";

#[test]
fn bytes_that_are_no_toml(rt: HostRuntime) -> Result<(), Fail> {
    assert_answers(&rt, rt.alloc(), "", NO_TOML)?;
    let no_text = answer(rt.alloc(), b"strategy = '\xff'")?;
    assert_eq!(rt; no_text.as_str(), "not_toml");
    let open = Long {
        prefix: "",
        item: "[",
        times: 81,
        back: "",
        due: "not_toml",
    };
    let opened = long_file(rt.alloc(), "a = ", &open)?;
    let closed = Long { item: "]", ..open };
    assert_lengths(&rt, rt.alloc(), opened.as_str(), &[closed])
}

const ARRAYS: [Long; 8] = [
    Long {
        prefix: "select = [",
        item: "'all', ",
        times: 32,
        back: "]",
        due: "taken",
    },
    Long {
        prefix: "select = [",
        item: "'all', ",
        times: 33,
        back: "]",
        due: "range select 33 0 32",
    },
    Long {
        prefix: "monitors = [",
        item: "'expect', ",
        times: 16,
        back: "]",
        due: "taken",
    },
    Long {
        prefix: "monitors = [",
        item: "'expect', ",
        times: 17,
        back: "]",
        due: "range monitors 17 0 16",
    },
    Long {
        prefix: "thread = [",
        item: "{}, ",
        times: 16,
        back: "]",
        due: "missing thread.0.kind",
    },
    Long {
        prefix: "thread = [",
        item: "{}, ",
        times: 17,
        back: "]",
        due: "range thread 17 0 16",
    },
    Long {
        prefix: "thread = [{kind = 'steps', lines = [",
        item: "'oldest', ",
        times: 256,
        back: "]}]",
        due: "taken",
    },
    Long {
        prefix: "thread = [{kind = 'steps', lines = [",
        item: "'oldest', ",
        times: 257,
        back: "]}]",
        due: "range thread.0.lines 257 0 256",
    },
];

#[test]
fn arrays_up_to_their_length(rt: HostRuntime) -> Result<(), Fail> {
    assert_lengths(&rt, rt.alloc(), "", &ARRAYS)
}

#[test]
fn a_tape_of_as_many_entries_as_a_run_has_steps(rt: HostRuntime) -> Result<(), Fail> {
    let full = Long {
        prefix: "tapes.selected = [",
        item: "0,",
        times: 65_536,
        back: "]",
        due: "taken",
    };
    assert_lengths(&rt, rt.alloc(), "", &[full])
}
