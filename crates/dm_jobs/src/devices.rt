//! Sources and sinks in memory. They tell nothing of their bytes: what a run makes of these is what `dm_text` promises
//! of any.

ghost use Rattle.std.specs.Prelude.{None};
ghost use Rattle.dm_text.specs.Devices.{HasRisen};

use dm_text::{Failed, Sink, Source};

/// Gives the bytes of a text.
#[derive(Drop)]
pub(crate) struct TextSource<'a> {
    rest: &'a [u8],
}

impl<'a> TextSource<'a> {
    /// Begins at the first byte.
    pub(crate) fn new(text: &'a [u8]) -> Self {
        TextSource { rest: text }
    }
}

impl<'a> Source for TextSource<'a> {
    ghost gave = { λ s t bytes. Unit {0} };

    ghost ended = { λ s. Unit {0} };

    ghost failed = { λ s. 0 };

    ghost asked = { λ s t most. Unit {0} };

    ghost gave_none = { λ s. tt };

    ghost gave_joined = { λ a b c x y first then. tt };

    ghost asked_none = { λ s. tt };

    ghost asked_joined = { λ a b c x m n most gave first then within after. tt };

    fn read(&mut self, into: &mut [u8]) -> Result<usize, Failed> {
        let count = into.len().min(self.rest.len());
        into[..count].copy_from_slice(&self.rest[..count]);
        self.rest = &self.rest[count..];
        Ok(count)
    }

    fn failures(&self) -> u64 {
        0
    }
}

/// Counts one more failure.
fn failure(failures: &mut u64) -> Failed
    ensures { HasRisen failures.old failures.new }
{
    *failures = failures.saturating_add(1);
    Failed
}

/// Keeps what it takes on a page; it fails where there is no memory for more.
#[derive(Drop)]
pub(crate) struct PageSink {
    pub(crate) page: Vec<u8>,
    failures: u64,
    pending: bool,
}

impl PageSink {
    /// Begins with an empty page.
    pub(crate) fn new(page: Vec<u8>) -> Self {
        PageSink {
            page,
            failures: 0,
            pending: false,
        }
    }
}

impl Sink for PageSink {
    ghost contents = { λ s. None };

    ghost failed = { λ s. s.failures };

    ghost is_pending = { λ s. s.pending };

    ghost flushed = { λ s t held. Unit {0} };

    ghost flushed_none = { λ s. tt };

    ghost flushed_joined = { λ a b c x y first then. tt };

    fn write(&mut self, bytes: &[u8]) -> Result<usize, Failed> {
        if self.page.extend_from_slice(bytes).is_err() {
            return Err(failure(&mut self.failures));
        }
        if !bytes.is_empty() {
            self.pending = true;
        }
        Ok(bytes.len())
    }

    fn flush(&mut self) -> Result<(), Failed> {
        self.pending = false;
        Ok(())
    }

    fn failures(&self) -> u64 {
        self.failures
    }

    fn pending(&self) -> bool {
        self.pending
    }
}
