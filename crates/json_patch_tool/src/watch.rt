//! A reader and a writer that record how the calls on them went, so that a clause can say when a
//! fault of theirs comes.

ghost use Rattle.std.specs.Prelude.{◌≡◌, ◌≢◌, ◌<◌, ◌+◌, ◌^◌, Ok, Err, MatchResult, true, false, length};
ghost use Rattle.std.specs.Io.{ReadsAtMost, WritesAtMost};
ghost use Rattle.std.specs.Io.KnownBytes.{Keeps, ReadConsumes, WriteAppends};
ghost use Rattle.std.specs.IoError.{error_kind};
ghost use Rattle.json_patch_tool.specs.Watched.{IsUnread, IsUnwritten};

use std::io;
use std::io::{ErrorKind, Read, Write};

/// A reader that records how its reads went.
#[derive(Drop)]
pub struct WatchedReader<R> {
    /// The reader that is watched.
    pub inner: R,
    /// How often it was read.
    pub calls: u64,
    /// Whether a read showed the end.
    pub has_ended: bool,
    /// Whether a read failed. One that was interrupted didn't.
    pub has_failed: bool,
}

impl<R: Read> WatchedReader<R> {
    /// The reader, before its first read.
    pub fn new(inner: R) -> WatchedReader<R>
        ensures inner { result.inner ≡ inner }
        ensures unread { IsUnread result }
    {
        WatchedReader {
            inner,
            calls: 0,
            has_ended: false,
            has_failed: false,
        }
    }
}

impl<R: Read> Read for WatchedReader<R> {
    ghost remaining = { λ r. R.remaining r.inner };

    fn read(&mut self, buf: &mut [u8]) -> io::Result<usize>
        ensures bound { ReadsAtMost result buf.new }
        ensures bytes { ReadConsumes (R.remaining self.old.inner) (R.remaining self.new.inner)
            result buf.new }
        ensures calls { self.old.calls < 2 ^ 63 → self.new.calls ≡ self.old.calls + 1 }
        ensures saw { MatchResult result
            (λ n. (self.new.has_failed ≡ self.old.has_failed)
            × (n ≡ 0 → self.new.has_ended ≡ true)
            × (0 < n → self.new.has_ended ≡ self.old.has_ended))
            (λ e. (self.new.has_ended ≡ self.old.has_ended)
            × (error_kind e ≡ ErrorKind.Interrupted → self.new.has_failed ≡ self.old.has_failed)
            × (error_kind e ≢ ErrorKind.Interrupted → self.new.has_failed ≡ true)) }
    {
        self.calls = self.calls.saturating_add(1);
        let result = self.inner.read(buf);
        match &result {
            Ok(0) => self.has_ended = true,
            Ok(_) => {}
            Err(e) => {
                if e.kind() != ErrorKind::Interrupted {
                    self.has_failed = true;
                }
            }
        }
        result
    }
}

/// A writer that records how its writes and flushes went.
#[derive(Drop)]
pub struct WatchedWriter<'a, W> {
    /// The writer that is watched.
    pub inner: &'a mut W,
    /// Whether a write or a flush failed, or a write took no byte of some.
    pub has_failed: bool,
    /// Whether the last call was a flush that didn't fail.
    pub is_flushed: bool,
}

impl<'a, W: Write> WatchedWriter<'a, W> {
    /// The writer, before its first call.
    pub fn new(inner: &'a mut W) -> WatchedWriter<'a, W>
        ensures same_reference { result.inner.ghost_name ≡ inner.entry.ghost_name }
        ensures holds { result.inner.now ≡ inner.old }
        ensures unwritten { IsUnwritten result }
    {
        WatchedWriter {
            inner,
            has_failed: false,
            is_flushed: false,
        }
    }
}

impl<W: Write> Write for WatchedWriter<'_, W> {
    ghost contents = { λ w. W.contents w.inner.now };

    fn write(&mut self, buf: &[u8]) -> io::Result<usize>
        ensures bound { WritesAtMost result buf.now }
        ensures bytes { WriteAppends (W.contents self.old.inner.now)
            (W.contents self.new.inner.now) result buf.now }
        ensures same_reference { self.new.inner.ghost_name ≡ self.old.inner.ghost_name }
        ensures saw { MatchResult result
            (λ n. (0 < n → self.new.has_failed ≡ self.old.has_failed)
            × (n ≡ 0 → 0 < length buf.now → self.new.has_failed ≡ true))
            (λ _. self.new.has_failed ≡ true) }
        ensures unflushed { self.new.is_flushed ≡ false }
    {
        self.is_flushed = false;
        let result = self.inner.write(buf);
        match &result {
            Ok(0) => {
                if !buf.is_empty() {
                    self.has_failed = true;
                }
            }
            Ok(_) => {}
            Err(_) => self.has_failed = true,
        }
        result
    }

    fn flush(&mut self) -> io::Result<()>
        ensures bytes { Keeps (W.contents self.old.inner.now) (W.contents self.new.inner.now) }
        ensures same_reference { self.new.inner.ghost_name ≡ self.old.inner.ghost_name }
        ensures saw { MatchResult result
            (λ _. (self.new.has_failed ≡ self.old.has_failed) × (self.new.is_flushed ≡ true))
            (λ _. self.new.has_failed ≡ true) }
    {
        let result = self.inner.flush();
        self.is_flushed = result.is_ok();
        self.has_failed = self.has_failed || result.is_err();
        result
    }
}
