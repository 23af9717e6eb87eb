ghost use Rattle.std.specs.Prelude.{◌≡◌, ◌<◌, ◌≤◌, length, take, IfOk, OnErr, is_err};
ghost use Rattle.chart_io.specs.Outside.{Appended, Kept, Moved};
ghost use Rattle.chart_io.specs.Counts.{faults_after};
ghost use Rattle.chart_io.specs.Stream.{source_left, sink_held, source_faults, sink_faults};

use crate::{Failed, Sink, Source};
use std::io::{Read, Write};

/// A reader, with a count of its failed calls. It tells what the reader tells.
#[derive(Drop)]
pub struct StreamSource<R> {
    inner: R,
    failed: u64,
}

impl<R: Read> StreamSource<R> {
    /// A source of what `inner` gives from here on. No call has failed yet.
    pub fn of(inner: R) -> StreamSource<R>
        ensures left { source_left R.remaining result ≡ R.remaining inner }
        ensures faults { source_faults result ≡ 0 }
    {
        StreamSource { inner, failed: 0 }
    }
}

impl<R: Read> Source for StreamSource<R> {
    ghost left = { source_left R.remaining };

    ghost faults = { source_faults };

    fn read(&mut self, buf: &mut [u8]) -> Result<usize, Failed>
        requires { 0 < length buf.old }
        ensures raised { source_faults self.new ≡
            faults_after (source_faults self.old) (is_err result) }
        ensures counted { source_faults self.old ≤ source_faults self.new }
        ensures within { IfOk result (λ n. n ≤ length buf.new) }
        ensures moved { let left = source_left R.remaining in
            IfOk result (Moved (left self.old) (left self.new) buf.new) }
        ensures stays { let left = source_left R.remaining in
            OnErr result (Kept (left self.old) (left self.new)) }
    {
        match self.inner.read(buf) {
            Ok(n) => Ok(n),
            Err(_) => {
                self.failed = self.failed.saturating_add(1);
                Err(Failed)
            }
        }
    }
}

/// A writer, with a count of its failed calls, those that take nothing among them. It tells what
/// the writer tells.
#[derive(Drop)]
pub struct StreamSink<W> {
    inner: W,
    failed: u64,
}

impl<W: Write> StreamSink<W> {
    /// A sink that appends to what `inner` holds. No call has failed yet.
    pub fn of(inner: W) -> StreamSink<W>
        ensures held { sink_held W.contents result ≡ W.contents inner }
        ensures faults { sink_faults result ≡ 0 }
    {
        StreamSink { inner, failed: 0 }
    }
}

impl<W: Write> Sink for StreamSink<W> {
    ghost held = { sink_held W.contents };

    ghost faults = { sink_faults };

    fn write(&mut self, piece: &[u8]) -> Result<usize, Failed>
        requires { 0 < length piece.now }
        ensures raised { sink_faults self.new ≡
            faults_after (sink_faults self.old) (is_err result) }
        ensures counted { sink_faults self.old ≤ sink_faults self.new }
        ensures within { IfOk result (λ n. (1 ≤ n) × (n ≤ length piece.now)) }
        ensures appended { let held = sink_held W.contents in
            IfOk result (λ n. Appended (held self.old) (held self.new) (take n piece.now)) }
        ensures stays { let held = sink_held W.contents in
            OnErr result (Kept (held self.old) (held self.new)) }
    {
        match self.inner.write(piece) {
            Ok(n) if n > 0 => Ok(n),
            _ => {
                self.failed = self.failed.saturating_add(1);
                Err(Failed)
            }
        }
    }
}
