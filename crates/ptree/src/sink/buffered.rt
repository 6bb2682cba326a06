//! A sink that gathers what it is given, and passes it on in fewer and larger puts.
ghost use Rattle.std.specs.Io.KnownBytes.{Appends, Keeps, WriteAppends};
ghost use Rattle.std.specs.Prelude.{◌≡◌, ◌↔◌, ◌+◌, ◌-◌, ◌≤◌, ◌<◌, [], false, IsTrue, take, drop, ◌++◌, length, vec_len, IfOk, IfErr, OnOk, IsSome, IsNone, Some, None};
ghost use Rattle.ptree.specs.Faults.{reported_by_put, reported_by_call, faults_of, put_outcome};
ghost use Rattle.ptree.specs.Writing.{HasCause, TakesNoMemory, put_faults};

use crate::output::place::place;
use crate::sink::faults::FaultCount;
use crate::sink::{DrawError, Sink};
use std::alloc::{AllocFailed, Global};
use std::io;

/// How a sink failed.
#[derive(Clone, Copy)]
enum SinkFault {
    /// The sink returned an error.
    Failed(io::Error),

    /// The sink accepted none of some bytes.
    TookNothing,
}

impl SinkFault {
    // Returns what a put that meets the fault returns.
    fn put_result(self) -> io::Result<usize>
        ensures { result ≡ reported_by_put self }
    {
        match self {
            SinkFault::Failed(e) => Err(e),
            SinkFault::TookNothing => Ok(0),
        }
    }

    // Returns the error of a call that writes.
    fn error(self) -> DrawError
        ensures { result ≡ reported_by_call self }
    {
        match self {
            SinkFault::Failed(e) => DrawError::Write(e),
            SinkFault::TookNothing => DrawError::Zero,
        }
    }
}

/// A [`Sink`] over another sink. It gathers what it is given, and passes it on in fewer and larger
/// puts. It never holds more bytes than it was made for.
#[derive(Drop)]
pub struct Buffered<S> {
    inner: S,
    // What it holds is the first `used` bytes.
    room: Vec<u8>,
    used: usize,
    fault: Option<SinkFault>,
    reported: FaultCount,
    ghost fits: { used ≤ length room.items },
    ghost reported_after: { 0 < reported.count → IsSome fault },
}

// Puts all the bytes. Returns how many the sink accepted, and the fault, if there was one.
fn put_until_fault<S: Sink>(sink: &mut S, bytes: &[u8]) -> (usize, Option<SinkFault>)
    ensures bound { result.0 ≤ length bytes.now }
    ensures all { IsNone result.1 → result.0 ≡ length bytes.now }
    ensures bytes { Appends (S.contents sink.old) (S.contents sink.new) (take result.0 bytes.now) }
    ensures faults { S.faults sink.new ≡ S.faults sink.old + faults_of result.1 }
{
    let mut taken = 0;
    while taken < bytes.len() {
        match sink.put(&bytes[taken..]) {
            Ok(0) => return (taken, Some(SinkFault::TookNothing)),
            Ok(n) => taken += n,
            Err(e) => return (taken, Some(SinkFault::Failed(e))),
        }
    }
    (taken, None)
}

// Removes the first `n` of the first `used` bytes: the others are moved to the front.
fn remove_prefix(room: &mut Vec<u8>, used: usize, n: usize)
    requires n { n ≤ used }
    requires used { used ≤ vec_len room.old }
    ensures bytes { take (used - n) room.new.items ≡ drop n (take used room.old.items) }
    ensures len { vec_len room.new ≡ vec_len room.old }
{
    room.copy_within(n..used, 0);
}

impl<S: Sink> Buffered<S> {
    ghost use Rattle.ptree.specs.Buffered.{inner_sink, held_bytes, room_of, stopped_at, given_bytes, reported_faults, PutsNoMore, FlushesNoMore, HandsOn, Stops, StopsPut, TakesAllOrNone};

    /// Makes a buffer before a sink. It holds at most this many bytes.
    ///
    /// # Errors
    ///
    /// Memory ran out.
    pub fn with_capacity(
        alloc: Global,
        capacity: usize,
        inner: S,
    ) -> Result<Buffered<S>, AllocFailed<S>>
        ensures inner { IfOk result (λ b. inner_sink b ≡ inner) }
        ensures refused { IfErr result (λ e. e.value ≡ inner) }
        ensures held { IfOk result (λ b. held_bytes b ≡ []) }
        ensures room { IfOk result (λ b. room_of b ≡ capacity) }
        ensures stopped { IfOk result (λ b. stopped_at b ≡ None) }
        ensures faults { IfOk result (λ b. reported_faults S.faults b ≡ S.faults inner) }
    {
        let mut room = Vec::new(alloc);
        let Ok(()) = room.resize(capacity, 0) else {
            return Err(AllocFailed { value: inner });
        };
        Ok(Buffered {
            inner,
            room,
            used: 0,
            fault: None,
            reported: FaultCount::new(),
        })
    }

    /// Passes on all that is held. If nothing is held, the inner sink is not called.
    ///
    /// # Errors
    ///
    /// `Write` or `Zero`. The inner sink has received a prefix of what was held. Each further call
    /// reports the error again.
    pub fn flush(&mut self) -> Result<(), DrawError>
        // No given byte is lost.
        ensures bytes { Keeps (given_bytes S.contents self.old) (given_bytes S.contents self.new) }
        // On success the inner sink has all the bytes.
        ensures done { OnOk result (held_bytes self.new ≡ []) }
        ensures arrived { OnOk result (Appends (S.contents (inner_sink self.old))
            (S.contents (inner_sink self.new)) (held_bytes self.old)) }
        ensures cause { HasCause (reported_faults S.faults self.old)
            (reported_faults S.faults self.new) result }
        ensures memory { TakesNoMemory result }
        ensures more { FlushesNoMore self.old self.new result }
        ensures handed { HandsOn S.contents S.faults self.old self.new }
        ensures stops { Stops (stopped_at self.new) result }
        ensures room { room_of self.new ≡ room_of self.old }
        ensures fits { length (held_bytes self.new) ≤ room_of self.new }
        // If nothing is held, the inner sink is not called.
        ensures idle { held_bytes self.old ≡ [] → inner_sink self.new ≡ inner_sink self.old }
    {
        if let Some(fault) = self.fault {
            self.reported = self.reported.next();
            return Err(fault.error());
        }
        self.hand_on();
        match self.fault {
            None => Ok(()),
            Some(fault) => Err(fault.error()),
        }
    }

    /// Returns the inner sink. What is held is dropped with the buffer, so call [`Buffered::flush`]
    /// first.
    pub fn into_inner(self) -> S
        ensures { result ≡ inner_sink self }
    {
        let Buffered {
            inner,
            room: _,
            used: _,
            fault: _,
            reported: _,
        } = self;
        inner
    }

    // Passes on what is held, up to a fault.
    fn hand_on(&mut self)
        requires { stopped_at self.old ≡ None }
        ensures bytes { Keeps (given_bytes S.contents self.old) (given_bytes S.contents self.new) }
        ensures faults { reported_faults S.faults self.new
            ≡ reported_faults S.faults self.old + faults_of (stopped_at self.new) }
        ensures done { stopped_at self.new ≡ None → held_bytes self.new ≡ [] }
        ensures told { self.new.reported ≡ self.old.reported }
        ensures room { room_of self.new ≡ room_of self.old }
        ensures idle { held_bytes self.old ≡ [] → inner_sink self.new ≡ inner_sink self.old }
        ensures handed { HandsOn S.contents S.faults self.old self.new }
    {
        if self.used == 0 {
            return;
        }
        let (taken, fault) = put_until_fault(&mut self.inner, &self.room[..self.used]);
        remove_prefix(&mut self.room, self.used, taken);
        self.used -= taken;
        self.fault = fault;
    }

    // Does what `put` does if there is no room, or if the sink has stopped.
    fn put_without_room(&mut self, bytes: &[u8]) -> io::Result<usize>
        ensures bound { IfOk result (λ n. n ≤ length bytes.now) }
        ensures bytes { WriteAppends (given_bytes S.contents self.old)
            (given_bytes S.contents self.new) result bytes.now }
        ensures faults { reported_faults S.faults self.new
            ≡ reported_faults S.faults self.old + put_faults result bytes.now }
        ensures more { PutsNoMore self.old self.new result bytes.now }
        ensures handed { HandsOn S.contents S.faults self.old self.new }
        ensures stops { StopsPut (stopped_at self.new) result bytes.now }
        ensures room { room_of self.new ≡ room_of self.old }
        ensures all { length bytes.now ≤ room_of self.old → TakesAllOrNone result bytes.now }
    {
        if bytes.is_empty() {
            return Ok(0);
        }
        if let Some(fault) = self.fault {
            self.reported = self.reported.next();
            return fault.put_result();
        }
        self.hand_on();
        if let Some(fault) = self.fault {
            return fault.put_result();
        }
        if bytes.len() <= self.room.len() {
            return Ok(self.take(bytes));
        }
        let result = self.inner.put(bytes);
        match result {
            Ok(0) => self.fault = Some(SinkFault::TookNothing),
            Ok(_) => {}
            Err(e) => self.fault = Some(SinkFault::Failed(e)),
        }
        result
    }

    // Does what `put_without_room` does. Returns how many bytes were accepted, or nothing if the sink
    // stopped at the fault that is stored: `put` is inlined, and has no room for an error.
    #[cold]
    #[inline(never)]
    fn put_or_stop(&mut self, bytes: &[u8]) -> Option<usize>
        ensures bound { IfOk (put_outcome result (stopped_at self.new))
            (λ n. n ≤ length bytes.now) }
        ensures bytes { WriteAppends (given_bytes S.contents self.old)
            (given_bytes S.contents self.new) (put_outcome result (stopped_at self.new))
            bytes.now }
        ensures faults { reported_faults S.faults self.new
            ≡ reported_faults S.faults self.old
            + put_faults (put_outcome result (stopped_at self.new)) bytes.now }
        ensures more { PutsNoMore self.old self.new (put_outcome result (stopped_at self.new))
            bytes.now }
        ensures handed { HandsOn S.contents S.faults self.old self.new }
        ensures stops { StopsPut (stopped_at self.new) (put_outcome result (stopped_at self.new))
            bytes.now }
        ensures room { room_of self.new ≡ room_of self.old }
        ensures all { length bytes.now ≤ room_of self.old
            → TakesAllOrNone (put_outcome result (stopped_at self.new)) bytes.now }
    {
        match self.put_without_room(bytes) {
            Ok(n) if n > 0 || bytes.is_empty() => Some(n),
            _ => None,
        }
    }

    // Takes bytes into the buffer, for which it has room, and returns how many. So it never grows.
    #[inline(always)]
    fn take(&mut self, bytes: &[u8]) -> usize
        requires { length (held_bytes self.old) + length bytes.now ≤ room_of self.old }
        ensures len { result ≡ length bytes.now }
        ensures inner { inner_sink self.new ≡ inner_sink self.old }
        ensures held { held_bytes self.new ≡ held_bytes self.old ++ bytes.now }
        ensures stopped { stopped_at self.new ≡ stopped_at self.old }
        ensures told { self.new.reported ≡ self.old.reported }
        ensures room { room_of self.new ≡ room_of self.old }
    {
        let end = self.used + bytes.len();
        // Short bytes are copied without a call, and this test spares long ones the others.
        if bytes.len() < 64 {
            place(&mut self.room, self.used, bytes);
        } else {
            self.room[self.used..end].copy_from_slice(bytes);
        }
        self.used = end;
        bytes.len()
    }
}

impl<S: Sink> Sink for Buffered<S> {
    ghost use Rattle.ptree.specs.Buffered.{inner_sink, held_bytes, room_of, stopped_at, given_bytes, reported_faults, PutsNoMore, StopsPut, HandsOn, TakesAllOrNone};

    ghost contents = { given_bytes S.contents };

    ghost faults = { reported_faults S.faults };

    /// Takes all the bytes if there is room for them, and does not call the inner sink then. If
    /// they are more than the whole buffer, they go to the inner sink in one put.
    #[inline(always)]
    fn put(&mut self, bytes: &[u8]) -> io::Result<usize>
        ensures bound { IfOk result (λ n. n ≤ length bytes.now) }
        ensures bytes { WriteAppends (given_bytes S.contents self.old)
            (given_bytes S.contents self.new) result bytes.now }
        ensures faults { reported_faults S.faults self.new
            ≡ reported_faults S.faults self.old + put_faults result bytes.now }
        ensures more { PutsNoMore self.old self.new result bytes.now }
        ensures handed { HandsOn S.contents S.faults self.old self.new }
        ensures stops { StopsPut (stopped_at self.new) result bytes.now }
        ensures room { room_of self.new ≡ room_of self.old }
        ensures fits { length (held_bytes self.new) ≤ room_of self.new }
        // If there is room for the bytes, the inner sink is not called, and all are taken.
        ensures waits { length (held_bytes self.old) + length bytes.now ≤ room_of self.old
            → inner_sink self.new ≡ inner_sink self.old }
        ensures taken { stopped_at self.old ≡ None
            → length (held_bytes self.old) + length bytes.now ≤ room_of self.old
            → result ≡ Ok (length bytes.now) }
        // If they fit into the whole buffer, all are taken or none.
        ensures all { length bytes.now ≤ room_of self.old → TakesAllOrNone result bytes.now }
    {
        if self.put_if_room(bytes) {
            return Ok(bytes.len());
        }
        match self.put_or_stop(bytes) {
            Some(n) => Ok(n),
            None => match self.fault {
                Some(SinkFault::Failed(e)) => Err(e),
                _ => Ok(0),
            },
        }
    }

    /// Takes all the bytes if there is room for them and the sink has not stopped. The inner sink is
    /// not called.
    #[inline(always)]
    fn put_if_room(&mut self, bytes: &[u8]) -> bool
        ensures exact { IsTrue result ↔ ((stopped_at self.old ≡ None)
            × (length (held_bytes self.old) + length bytes.now ≤ room_of self.old)) }
        ensures held { IsTrue result → held_bytes self.new ≡ held_bytes self.old ++ bytes.now }
        ensures inner { inner_sink self.new ≡ inner_sink self.old }
        ensures stopped { stopped_at self.new ≡ stopped_at self.old }
        ensures told { self.new.reported ≡ self.old.reported }
        ensures room { room_of self.new ≡ room_of self.old }
        // And what a sink promises.
        ensures accepted { IsTrue result → Appends (given_bytes S.contents self.old)
            (given_bytes S.contents self.new) bytes.now }
        ensures no_fault { IsTrue result
            → reported_faults S.faults self.new ≡ reported_faults S.faults self.old }
        ensures refused { result ≡ false → self.new ≡ self.old }
    {
        if self.fault.is_some() || bytes.len() > self.room.len() - self.used {
            return false;
        }
        self.take(bytes);
        true
    }
}
