ghost use Rattle.std.specs.Prelude.{◌≡◌, ℕ, ◌+◌, ◌*◌, ◌<◌, ◌≤◌, IfSome};
ghost use Rattle.seed_draws.specs.Share.{share, split_of};

/// How many words each draw below a bound has.
pub(crate) fn share_of(bound: u64) -> u64
    requires { 2 ≤ bound }
    ensures { result ≡ share bound }
{
    // The number of all words is no u64: what it has past the bound is divided, and one share is the bound's own.
    (u64::MAX - bound + 1) / bound + 1
}

/// The draw below a bound that a word gives, and the rest: which of the words of that draw it is. None where the word
/// is left over, since each draw has equally many.
pub fn word_split(bound: u64, word: u64) -> Option<(u64, u64)>
    requires { 1 ≤ bound }
    ensures split { result ≡ split_of bound word }
    ensures below { IfSome result (λ given. (given.0 < bound) × (given.1 < share bound)) }
{
    if bound == 1 {
        return Some((0, word));
    }
    let share = share_of(bound);
    let draw = word / share;
    if draw >= bound {
        return None;
    }
    Some((draw, word % share))
}

/// The word that gives this draw below a bound and this rest: the inverse of `word_split`.
pub fn word_join(bound: u64, draw: u64, rest: u64) -> u64
    requires draw { draw < bound }
    requires rest { rest < share bound }
    ensures word { result ≡ draw * share bound + rest }
    ensures split { split_of bound result ≡ Some (draw, rest) }
    ensures only { (word : ℕ) → split_of bound word ≡ Some (draw, rest) → word ≡ result }
{
    if bound == 1 {
        return rest;
    }
    draw * share_of(bound) + rest
}

#[cfg(test)]
mod tests;
