//! Honest ports over memory, for tests.
ghost use Rattle.std.specs.Prelude.{◌≡◌, ◌<◌, ◌≤◌, ◌+◌, ◌-◌, ◌++◌, ◌==◌, ◌&&◌, ◌||◌, nat_lt, [], true, false, min, length, take, Some, IfOk, IfErr, OnOk, OnErr};
ghost use Rattle.std.specs.Result.{is_err};
ghost use Rattle.octet_ports.specs.Ports.{Source, Sink, Gives, IsAtEnd, source_of};

use crate::port::{PortFault, PortIn, PortOut};
use arrayvec::ArrayVec;

/// Gives octets, at most `step` at a time.
#[derive(Drop)]
pub struct TapeIn<'a> {
    rest: &'a [u8],
    step: u32,
    fuse: u64,
    failed: bool,
    ghost steps: { 0 < step },
}

impl<'a> TapeIn<'a> {
    /// Fails at the `get` of this number, from 0.
    pub fn new(octets: &'a [u8], step: u32, fuse: u64) -> Self
        requires { 0 < step }
        ensures honest { (⟦<TapeIn<'a> as PortIn>⟧.source result).honest ≡ true }
        ensures coming { (⟦<TapeIn<'a> as PortIn>⟧.source result).coming ≡ octets.now }
        ensures failed { (⟦<TapeIn<'a> as PortIn>⟧.source result).failed ≡ false }
        ensures step { result.step ≡ step }
        ensures fuse { result.fuse ≡ fuse }
    {
        TapeIn {
            rest: octets,
            step,
            fuse,
            failed: false,
        }
    }
}

impl PortIn for TapeIn<'_> {
    ghost source = { λ tape. source_of (Some tape.rest.now) tape.failed };

    fn get(&mut self, buffer: &mut [u8]) -> Result<usize, PortFault>
        requires { self.old.failed ≡ false }
        ensures count { IfOk result (λ n. n ≤ length buffer.old) }
        ensures octets { IfOk result (λ n. Gives (take n buffer.new) (source_of (Some self.old.rest.now) self.old.failed)
            (source_of (Some self.new.rest.now) self.new.failed)) }
        ensures end { IfOk result (λ n. n ≡ 0 → 0 < length buffer.old → IsAtEnd (source_of (Some self.new.rest.now) self.new.failed)) }
        ensures fault { IfErr result (λ _. Gives [] (source_of (Some self.old.rest.now) self.old.failed) (source_of (Some self.new.rest.now) self.new.failed)) }
        ensures failed { self.new.failed ≡ is_err result }

        // How much, and when it fails.
        ensures amount { IfOk result (λ n. n ≡ min (length buffer.old) (min (length self.old.rest.now) self.old.step)) }
        ensures breaks { is_err result ≡ (self.old.fuse == 0) }
        ensures burns { OnOk result (self.new.fuse + 1 ≡ self.old.fuse) }
        ensures step { self.new.step ≡ self.old.step }
    {
        if self.fuse == 0 {
            self.failed = true;
            return Err(PortFault);
        }
        self.fuse -= 1;
        let count = buffer.len().min(self.rest.len()).min(self.step as usize);
        let (given, rest) = self.rest.split_at(count);
        buffer[..count].copy_from_slice(given);
        self.rest = rest;
        Ok(count)
    }

    fn failed(&self) -> bool {
        self.failed
    }
}

/// As many octets as a tape holds.
pub const TAPE_OCTETS: usize = 4096;

const _: () = prove!(TAPE_OCTETS == 4 * 1024);

/// Takes octets, at most `step` at a time.
#[derive(Drop)]
pub struct TapeOut {
    held: ArrayVec<u8, TAPE_OCTETS>,
    passed: usize,
    step: u32,
    fuse: u64,
    failed: bool,
    ghost steps: { 0 < step },
    ghost known: { passed ≤ length held.items },
}

impl TapeOut {
    /// Fails at the `put` or `flush` of this number, from 0, and at a `put` once it is full.
    pub fn new(step: u32, fuse: u64) -> Self
        requires { 0 < step }
        ensures honest { (⟦<TapeOut as PortOut>⟧.sink result).honest ≡ true }
        ensures held { (⟦<TapeOut as PortOut>⟧.sink result).held ≡ [] }
        ensures failed { (⟦<TapeOut as PortOut>⟧.sink result).failed ≡ false }
        ensures step { result.step ≡ step }
        ensures fuse { result.fuse ≡ fuse }
    {
        TapeOut {
            held: ArrayVec::new(),
            passed: 0,
            step,
            fuse,
            failed: false,
        }
    }

    /// What it took.
    pub fn held(&self) -> &[u8]
        ensures { result.now ≡ (⟦<TapeOut as PortOut>⟧.sink self.now).held }
    {
        self.held.as_slice()
    }

    /// How many octets of what it took are passed on: those before its last flush.
    pub fn passed(&self) -> usize
        ensures { result ≡ (⟦<TapeOut as PortOut>⟧.sink self.now).passed }
    {
        self.passed
    }
}

impl PortOut for TapeOut {
    ghost sink = { λ tape. record { honest = true; held = tape.held.items; passed = tape.passed; failed = tape.failed } };

    fn put(&mut self, octets: &[u8]) -> Result<usize, PortFault>
        requires { self.old.failed ≡ false }
        ensures some { IfOk result (λ n. 0 < length octets.now → 0 < n) }
        ensures octets { IfOk result (λ n. self.new.held.items ≡ self.old.held.items ++ take n octets.now) }
        ensures kept { OnErr result (self.new.held.items ≡ self.old.held.items) }
        ensures passed { self.new.passed ≡ self.old.passed }
        ensures failed { self.new.failed ≡ is_err result }

        // How much, and when it fails.
        ensures amount { IfOk result (λ n. n ≡ min (length octets.now) (min (TAPE_OCTETS - length self.old.held.items) self.old.step)) }
        ensures breaks { is_err result ≡ (self.old.fuse == 0 || (length self.old.held.items == TAPE_OCTETS && nat_lt 0 (length octets.now))) }
        ensures burns { OnOk result (self.new.fuse + 1 ≡ self.old.fuse) }
        ensures step { self.new.step ≡ self.old.step }
    {
        let room = self.held.remaining_capacity();
        if self.fuse == 0 || (room == 0 && !octets.is_empty()) {
            self.failed = true;
            return Err(PortFault);
        }
        self.fuse -= 1;
        let count = octets.len().min(room).min(self.step as usize);
        let _ = self.held.try_extend_from_slice(&octets[..count]);
        Ok(count)
    }

    fn flush(&mut self) -> Result<(), PortFault>
        requires { self.old.failed ≡ false }
        ensures held { self.new.held.items ≡ self.old.held.items }
        ensures all { OnOk result (self.new.passed ≡ length self.new.held.items) }
        ensures kept { OnErr result (self.new.passed ≡ self.old.passed) }
        ensures failed { self.new.failed ≡ is_err result }

        // When it fails.
        ensures breaks { is_err result ≡ (self.old.fuse == 0) }
        ensures burns { OnOk result (self.new.fuse + 1 ≡ self.old.fuse) }
        ensures step { self.new.step ≡ self.old.step }
    {
        if self.fuse == 0 {
            self.failed = true;
            return Err(PortFault);
        }
        self.fuse -= 1;
        self.passed = self.held.len();
        Ok(())
    }

    fn failed(&self) -> bool {
        self.failed
    }
}
