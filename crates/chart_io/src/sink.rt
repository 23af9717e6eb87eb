ghost use Rattle.std.specs.Prelude.{◌≡◌, [], ◌++◌, ◌-◌, ◌<◌, ◌≤◌, ◌||◌, nat_le, Some, min, length, take, IfOk, OnErr, is_err};
ghost use Rattle.chart_io.specs.Counts.{no_calls, next_fails, after_call};

use crate::counts::Calls;
use crate::{Failed, Sink};
use std::alloc::Global;
use std::marker::Model;
use text_kit::OutOfMemory;

/// How many bytes a `ListSink` has room for.
pub const SINK_ROOM: usize = 4_194_304;

/// Takes bytes into memory, up to `SINK_ROOM` of them, with calls that fail. A write takes no
/// memory: it uses the room that `of` made, and fails where that is full.
#[derive(Drop)]
pub struct ListSink {
    bytes: Vec<u8>,
    most: usize,
    calls: Calls,
}

impl Model for ListSink {
    ghost use Rattle.std.specs.Prelude.{◌≤◌, length, vec_capacity};
    ghost use Rattle.chart_io.specs.declared.sink.TheConstants.{SINK_ROOM};
    ghost use Rattle.chart_io.specs.Memory.{SinkState};

    ghost Value = { SinkState };

    ghost view = { λ sink. record { held = sink.bytes.items; most = sink.most; calls = sink.calls } };

    ghost invariant = { λ sink. (SINK_ROOM ≤ vec_capacity sink.bytes)
        × (length sink.bytes.items ≤ SINK_ROOM) × (1 ≤ sink.most) };
}

impl ListSink {
    /// An empty sink. A call takes at most `most` bytes. The calls whose number, from 1, stands in
    /// `fails` will fail.
    pub fn of(alloc: Global, most: usize, fails: Vec<u64>) -> Result<ListSink, OutOfMemory>
        requires { 1 ≤ most }
        ensures { IfOk result (λ sink. sink ≡ record {
          held = [];
          most = most;
          calls = no_calls fails.items;
        }) }
    {
        Ok(ListSink {
            bytes: Vec::with_capacity(alloc, SINK_ROOM)?,
            most,
            calls: Calls::of(fails),
        })
    }

    /// The bytes that were taken.
    pub fn bytes(&self) -> &[u8]
        ensures { result.now ≡ self.now.held }
    {
        self.bytes.as_slice()
    }
}

impl Sink for ListSink {
    ghost held = { λ sink. Some sink.held };

    ghost faults = { λ sink. sink.calls.failed };

    fn write(&mut self, piece: &[u8]) -> Result<usize, Failed>
        requires { 0 < length piece.now }
        ensures fails { is_err result ≡
            (next_fails self.old.calls || nat_le SINK_ROOM (length self.old.held)) }
        ensures calls { self.new.calls ≡ after_call self.old.calls (is_err result) }
        ensures counted { self.old.calls.failed ≤ self.new.calls.failed }
        ensures count { IfOk result (λ n. n ≡
            min (length piece.now) (min self.old.most (SINK_ROOM - length self.old.held))) }
        ensures within { IfOk result (λ n. (1 ≤ n) × (n ≤ length piece.now)) }
        ensures appended { IfOk result (λ n. self.new.held ≡ self.old.held ++ take n piece.now) }
        ensures stays { OnErr result (self.new.held ≡ self.old.held) }
        ensures most { self.new.most ≡ self.old.most }
    {
        let fails = self.calls.next_fails() || self.bytes.len() >= SINK_ROOM;
        self.calls.count(fails);
        if fails {
            return Err(Failed);
        }
        let room = SINK_ROOM - self.bytes.len();
        let n = piece.len().min(self.most.min(room));
        match self.bytes.extend_from_slice(&piece[..n]) {
            Ok(()) => Ok(n),
            Err(_) => unreachable!(),
        }
    }
}
