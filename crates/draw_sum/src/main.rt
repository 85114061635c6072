//! Adds up draws from a seed: `draw_sum SEED STREAM BOUND COUNT` prints the sum of so many draws below a bound, modulo
//! 2^64, and how many of them were bent. It is a caller of `seed_draws` alone, and `bench/run` times it.
#![tactic(auto)]

ghost use Rattle.std.specs.Prelude.{◌≡◌, ◌≤◌, IfOk, IfSome};
ghost use Rattle.draw_sum.specs.Sum.{source_after, sum_of};

use seed_draws::{Draws, Seeded};
use std::env::{self, Env};
use std::io;
use std::process::ExitCode;
use surw_base::read_whole_number;

// What the words ask for.
#[derive(Clone, Copy)]
struct Asked {
    seed: u64,
    stream: u64,
    bound: u64,
    count: u64,
}

fn main(rt: HostRuntime) -> io::Result<ExitCode> {
    let Some(asked) = read_words(&rt)? else {
        println!(rt; "usage: draw_sum SEED STREAM BOUND COUNT, with a bound from 1 on")?;
        return Ok(ExitCode::from(2));
    };
    let mut source = Seeded::new(asked.seed, asked.stream);
    let sum = sum_of(&mut source, asked.bound, asked.count);
    println!(rt; "sum {sum}")?;
    println!(rt; "bent {}", source.bent())?;
    Ok(ExitCode::SUCCESS)
}

// What the words ask for. None where they aren't four numbers, the third from 1 on.
fn read_words<R: Env + AllocGlobal>(rt: &R) -> io::Result<Option<Asked>>
    ensures bound { IfOk result (λ found. IfSome found (λ asked. 1 ≤ asked.bound)) }
{
    let mut words = env::args(rt)?.skip(1);
    let mut numbers = [0; 4];
    for number in &mut numbers {
        let Some(word) = words.next() else {
            return Ok(None);
        };
        match read_whole_number(word.as_bytes()) {
            Some(found) => *number = found,
            None => return Ok(None),
        }
    }
    if words.next().is_some() || numbers[2] == 0 {
        return Ok(None);
    }
    Ok(Some(Asked {
        seed: numbers[0],
        stream: numbers[1],
        bound: numbers[2],
        count: numbers[3],
    }))
}

// The sum of so many draws below a bound, modulo 2^64.
#[tactic(auto, unfolding(crate::specs::Sum::sum_of, crate::specs::Sum::source_after))]
fn sum_of(source: &mut Seeded, bound: u64, count: u64) -> u64
    requires { 1 ≤ bound }
    ensures sum { result ≡ sum_of source.old bound count }
    ensures after { source.new ≡ source_after source.old bound count }
{
    let mut sum = 0_u64;
    for _draw in 0..count {
        if let Ok(draw) = source.below(bound) {
            sum = sum.wrapping_add(draw);
        }
    }
    sum
}
