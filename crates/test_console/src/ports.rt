//! A tape that is full, and devices that fail or don't: std has no word for when a device fails.
use crate::shaky::{HELD_OCTETS, Shaky};
use octet_ports::{
    PortFault, PortIn, PortOut, Reading, TAPE_OCTETS, TapeIn, TapeOut, Writing, read_octets,
    write_octets,
};
use std::alloc::{AllocError, Global};
use std::test::Fail;

/// A tape or a device of this fuse doesn't fail.
pub(crate) const NEVER: u64 = u64::MAX;

/// As many octets as a device takes or gives at a time.
const WIDE: usize = 512;

/// As few as a device takes or gives at a time, more than one.
const FEW: usize = 3;

/// More octets than wait in any run between two flushes.
const MILLION_AND_MORE: usize = 1_100_000;

/// So many octets, of which none is as the one before.
fn numbered(alloc: Global, count: usize) -> Result<Vec<u8>, AllocError> {
    let mut octets = Vec::new(alloc);
    for place in 0..count {
        octets.push((place % 251) as u8)?;
    }
    Ok(octets)
}

#[test]
fn a_tape_is_full_at_4096(rt: HostRuntime) {
    let mut tape = TapeOut::new(1000, NEVER);
    let answer = write_octets(&mut tape, &[7; TAPE_OCTETS]);
    assert!(rt; answer.is_ok());
    assert!(rt; tape.held() == [7u8; 4096].as_slice());
    let nothing = tape.put(b"");
    assert!(rt; nothing == Ok(0));
    let more = tape.put(b"x");
    assert!(rt; more.is_err() && tape.failed());
    assert!(rt; tape.held().len() == 4096);
}

#[test]
fn fills_buffers(rt: HostRuntime) {
    let mut tape = TapeIn::new(b"rest", 3, NEVER);
    let mut buffer = [0; 4];
    let whole = read_octets(&mut tape, &mut buffer).expect(&rt, "octets");
    assert!(rt; whole);
    assert!(rt; buffer == *b"rest");
    let ended = read_octets(&mut tape, &mut buffer).expect(&rt, "the end");
    assert!(rt; !ended);
}

#[test]
fn ports_fail_where_their_device_does(rt: HostRuntime) {
    // Calls of no octets too.
    for count in [0, 1, WIDE] {
        let mut octets = [0; WIDE];
        let mut input = Reading::new(Shaky::new(b"", WIDE, 0));
        let got = input.get(&mut octets[..count]);
        assert!(rt; got == Err(PortFault));
        assert!(rt; input.failed());
        let mut output = Writing::new(Shaky::new(b"", WIDE, 0));
        let put = output.put(&octets[..count]);
        assert!(rt; put == Err(PortFault));
        assert!(rt; output.failed());
    }
    let mut output = Writing::new(Shaky::new(b"", WIDE, 0));
    let flushed = output.flush();
    assert!(rt; flushed == Err(PortFault));
    assert!(rt; output.failed());
    assert!(rt; output.into_inner().flushes == 0);
}

#[test]
fn ports_take_long_buffers(rt: HostRuntime) {
    let sevens = [7; WIDE];
    let mut octets = [0; WIDE];
    let mut input = Reading::new(Shaky::new(&sevens, WIDE, NEVER));
    let got = input.get(&mut octets);
    assert!(rt; got == Ok(WIDE));
    assert!(rt; octets == sevens);
    let mut output = Writing::new(Shaky::new(b"", WIDE, NEVER));
    let put = output.put(&octets);
    assert!(rt; put == Ok(WIDE));
    assert!(rt; !input.failed() && !output.failed());
}

#[test]
fn few_octets_at_a_time_lose_nothing(rt: HostRuntime) -> Result<(), Fail> {
    let octets = numbered(rt.alloc(), HELD_OCTETS)?;
    let mut output = Writing::new(Shaky::new(b"", FEW, NEVER));
    let answer = write_octets(&mut output, &octets);
    assert!(rt; answer.is_ok());
    assert!(rt; !output.failed());
    let device = output.into_inner();
    assert!(rt; device.written == 2_048);
    assert!(rt; device.held.as_slice() == octets.as_slice());
    let mut input = Reading::new(Shaky::new(&octets, FEW, NEVER));
    let mut got = vec![in rt.alloc(); 0u8; HELD_OCTETS]?;
    let whole = read_octets(&mut input, &mut got);
    assert!(rt; whole == Ok(true));
    assert!(rt; !input.failed());
    assert!(rt; got.as_slice() == octets.as_slice());
    Ok(())
}

#[test]
fn a_million_octets_wait_for_a_flush(rt: HostRuntime) -> Result<(), Fail> {
    let octets = vec![in rt.alloc(); 7u8; MILLION_AND_MORE]?;
    let mut output = Writing::new(Shaky::new(b"", WIDE, NEVER));
    let answer = write_octets(&mut output, &octets);
    assert!(rt; answer.is_ok());
    let flushed = output.flush();
    assert!(rt; flushed.is_ok());
    let device = output.into_inner();
    assert!(rt; device.written == 1_100_000);
    assert!(rt; device.flushes == 1);
    Ok(())
}
