ghost use Rattle.std.specs.Prelude.{◌≡◌, ◌<◌, [], ◌∷◌, length, IfSome, MatchOption};
ghost use Rattle.replay_text.specs.Lines.{whole_lines, unfinished};

use memchr::memchr;

// The first whole line of a text, without its line feed, and what is behind it. None where there is no whole line.
pub(crate) fn next_line(text: &[u8]) -> Option<(&[u8], &[u8])>
    ensures lines { MatchOption result (whole_lines text.now ≡ []) (λ cut. whole_lines text.now ≡ cut.0.now ∷ whole_lines cut.1.now) }
    ensures rest { MatchOption result (unfinished text.now ≡ text.now) (λ cut. unfinished text.now ≡ unfinished cut.1.now) }
    ensures shorter { IfSome result (λ cut. length cut.1.now < length text.now) }
{
    match memchr(b'\n', text) {
        Some(end) => Some((&text[..end], &text[end + 1..])),
        None => None,
    }
}
