ghost use Rattle.std.specs.Prelude.{◌≡◌, ◌≤◌};
ghost use Rattle.seed_draws.specs.Seeded.{drawn, seeded};

use crate::share::share_of;
use crate::{DrawFault, Draws};
use rand_core::utils::NextWord;
use rand_pcg::Pcg64;
use std::alloc::Global;
use std::marker::Model;
use surw_base::OutOfMemory;

/// How many words a draw looks at.
const TRIES: u8 = 16;

/// A source whose draws are made of the words of a generator. It never refuses. A contract sees the generator's seed and
/// stream, how many words were taken, and how many draws were bent; both counts stay at the greatest number. While the
/// words are counted, the generator is the one that the seed and the stream make, after so many words.
#[derive(Debug, Drop)]
pub struct Seeded {
    generator: Pcg64,
    seed: u64,
    stream: u64,
    words: u64,
    bent: u64,
}

impl Model for Seeded {
    ghost use Rattle.std.specs.Prelude.{◌≡◌, ◌<◌};
    ghost use Rattle.surw_base.specs.Number.{greatest};
    ghost use Rattle.seed_draws.specs.Seeded.{SeededState, generator_at, progress_by};

    ghost Value = { SeededState };

    ghost view = { λ a. record { seed = a.seed; stream = a.stream; progress = progress_by a.words a.generator; bent = a.bent } };

    ghost invariant = { λ a. a.words < greatest → a.generator ≡ generator_at a.seed a.stream a.words };
}

impl Seeded {
    ghost use Rattle.std.specs.Prelude.{◌≡◌};
    ghost use Rattle.seed_draws.specs.Seeded.{after_word, word_of};

    /// A source of which nothing was taken.
    pub fn new(seed: u64, stream: u64) -> Self
        ensures { result ≡ seeded seed stream }
    {
        Seeded {
            generator: Pcg64::new(u128::from(seed), u128::from(stream)),
            seed,
            stream,
            words: 0,
            bent: 0,
        }
    }

    // The next word.
    fn word(&mut self) -> u64
        ensures word { result ≡ word_of self.old }
        ensures after { self.new ≡ after_word self.old }
    {
        let word = self.generator.next_word();
        self.words = self.words.saturating_add(1);
        word
    }

    // The draw of the first word that is accepted. If none is, the last one is bent below the bound.
    fn draw(&mut self, bound: u64) -> u64
        requires { 2 ≤ bound }
        ensures { (result, self.new) ≡ drawn bound self.old }
    {
        let share = share_of(bound);
        let mut word = 0;
        for _turn in 0..TRIES {
            word = self.word();
            let draw = word / share;
            if draw < bound {
                return draw;
            }
        }
        self.bent = self.bent.saturating_add(1);
        word % bound
    }
}

impl Draws for Seeded {
    ghost use Rattle.seed_draws.specs.Seeded.{seeded_answer, seeded_after, is_same_seeded};
    ghost use Rattle.seed_draws.specs.SeededLaws.{seeded_below, seeded_kept, same_seeded_is_equal};

    ghost answer = { seeded_answer };

    ghost after_answer = { seeded_after };

    ghost bent_draws = { λ s. s.bent };

    ghost counts_as_one = { is_same_seeded };

    ghost below_its_bound = { seeded_below };

    ghost kept_at_refusal = { seeded_kept };

    ghost one_is_equal = { same_seeded_is_equal };

    fn below(&mut self, bound: u64) -> Result<u64, DrawFault> {
        if bound == 1 {
            return Ok(0);
        }
        Ok(self.draw(bound))
    }

    fn bent(&self) -> u64 {
        self.bent
    }

    fn copy(&self, _alloc: Global) -> Result<Seeded, OutOfMemory> {
        Ok(Seeded {
            generator: self.generator.clone()?,
            seed: self.seed,
            stream: self.stream,
            words: self.words,
            bent: self.bent,
        })
    }

    fn same(&self, other: &Seeded) -> bool {
        self.seed == other.seed
            && self.stream == other.stream
            && self.bent == other.bent
            && self.words == other.words
            && self.words < u64::MAX
    }
}

#[cfg(test)]
mod tests;
