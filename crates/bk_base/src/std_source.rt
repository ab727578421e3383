ghost use Rattle.std.specs.Prelude.{◌≡◌, [], false};

use crate::buf::Buf;
use crate::failed::Failed;
use crate::history::History;
use crate::source::Source;
use std::io::Read;

/// A reader of std, and how many of its reads failed.
#[derive(Drop)]
pub struct StdSource<R: Read + Drop> {
    inner: R,
    history: History,
    ended: bool,
    faults: u64,
}

impl<R: Read + Drop> StdSource<R> {
    /// The source of what the reader gives, with nothing given and no fault yet.
    pub fn new(reader: R) -> StdSource<R>
        ensures { ⟦<StdSource<R> as Source>⟧.state result
            ≡ record { left = R.remaining reader; given = []; ended = false; faults = 0 } }
    {
        StdSource {
            inner: reader,
            history: History::new(),
            ended: false,
            faults: 0,
        }
    }
}

impl<R: Read + Drop> Source for StdSource<R> {
    ghost state = { λ s. record { left = R.remaining s.inner; given = s.history.given; ended = s.ended; faults = s.faults } };

    fn read(&mut self, max: u32, buf: &mut Buf) -> Result<u32, Failed> {
        match buf.fill(max, &mut self.inner) {
            Ok(count) => {
                self.history = self.history.then(buf);
                self.ended = count == 0;
                Ok(count)
            }
            Err(_) => {
                self.faults = self.faults.saturating_add(1);
                Err(Failed)
            }
        }
    }
}
