// Trusted edge: no clause says that these calls reach the real standard output; a test shows it.
ghost use Rattle.std.specs.Prelude.{◌≡◌, None};

use crate::{Sink, WriteSink};
use std::io::{self, Printer};

/// Standard output. It tells nothing of what was printed.
pub type StdSink<'a, R> = WriteSink<Printer<'a, R>>;

impl<'a, R: Print> StdSink<'a, R> {
    /// A sink over the runtime's standard output.
    pub fn new(rt: &'a R) -> StdSink<'a, R>
        ensures taken { ⟦<StdSink<'a, R> as Sink>⟧.taken result ≡ None }
        ensures faults { ⟦<StdSink<'a, R> as Sink>⟧.faults result ≡ 0 }
    {
        WriteSink::over(io::writer(rt))
    }
}

#[cfg(test)]
mod tests {
    use super::*;
    use crate::put_all;

    #[test]
    fn standard_output_takes_all(rt: HostRuntime) {
        let mut out = StdSink::new(&rt);
        assert_eq!(rt; put_all(&mut out, b"to standard output\n"), Ok(()));
    }
}
