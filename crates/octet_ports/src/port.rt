//! Ports: what octets come from and go to.
ghost use Rattle.std.specs.Prelude.{◌≡◌, ◌<◌, ◌≤◌, true, false, [], length, take, IsOk, IfOk, IfErr};
ghost use Rattle.std.specs.Result.{is_err};
ghost use Rattle.octet_ports.specs.Ports.{Source, Sink, Gives, Holds, Takes, TakesFirst, IsAtEnd, HasPassedAll, HasPassedSome};

/// A device failed.
#[derive(Clone, Copy, Debug, PartialEq, Eq)]
pub struct PortFault;

/// What octets come from. Once it has failed it is used no more.
pub trait PortIn {
    ghost source: { Self → Source };

    /// Reads some octets to the front of the buffer: none only at the end, or where the buffer is empty.
    fn get(&mut self, buffer: &mut [u8]) -> Result<usize, PortFault>
        requires { (source self.old).failed ≡ false }
        ensures count { IfOk result (λ n. n ≤ length buffer.old) }
        ensures octets { IfOk result (λ n. Gives (take n buffer.new) (source self.old) (source self.new)) }
        ensures end { IfOk result (λ n. n ≡ 0 → 0 < length buffer.old → IsAtEnd (source self.new)) }
        ensures fault { IfErr result (λ _. Gives [] (source self.old) (source self.new)) }
        ensures failed { (source self.new).failed ≡ is_err result };

    /// Whether the device has failed: for whoever keeps the port after a run.
    fn failed(&self) -> bool
        ensures { result ≡ (source self.now).failed };
}

/// What octets go to. It may hold them back until it is flushed. Once it has failed it is used no more.
pub trait PortOut {
    ghost sink: { Self → Sink };

    /// Writes some of the octets, from the first on: none only where there are none. Nothing is passed on by it.
    fn put(&mut self, octets: &[u8]) -> Result<usize, PortFault>
        requires { (sink self.old).failed ≡ false }
        ensures count { IfOk result (λ n. n ≤ length octets.now) }
        ensures some { IfOk result (λ n. 0 < length octets.now → 0 < n) }
        ensures octets { IfOk result (λ n. Takes (take n octets.now) (sink self.old) (sink self.new)) }
        ensures fault { IfErr result (λ _. TakesFirst octets.now (sink self.old) (sink self.new)) }
        ensures failed { (sink self.new).failed ≡ is_err result };

    /// Passes on what is held back: all of it, or where the device fails perhaps some.
    fn flush(&mut self) -> Result<(), PortFault>
        requires { (sink self.old).failed ≡ false }
        ensures octets { Holds [] (sink self.old) (sink self.new) }
        ensures all { IsOk result → HasPassedAll (sink self.new) }
        ensures some { is_err result ≡ true → HasPassedSome (sink self.old) (sink self.new) }
        ensures failed { (sink self.new).failed ≡ is_err result };

    /// Whether the device has failed: for whoever keeps the port after a run.
    fn failed(&self) -> bool
        ensures { result ≡ (sink self.now).failed };
}
