//! Who is called, how often and in which order, row by row as the standard lays it down (SPRU360): each diary was written by hand.

use crate::channel_calls;
use crate::diary::{ACTIVATE, CONTROL, DEACTIVATE, Diary, INIT, MOVED, PROCESS};
use crate::host_calls::Call::{self, Create, Delete, Get, Process, Release, SetRefused, Step};
use crate::host_calls::make;
use host_map::Sizes;
use ialg::Refusal;
use mem_rec::Space;
use std::alloc::Global;
use std::process::Abort;
use voice_channel::{Channels, Host};

const AMPLE: Sizes = Sizes {
    daram: 4_096,
    saram: 4_096,
    external: 4_096,
};

// A diary's parameters are its words of scratch memory in `daram` and `saram`, and of write-once memory, and whether the object is the
// diary.
const FILTER: [i16; 3] = [8, 0, 0];

const FILTER_WITH_CONSTANTS: [i16; 3] = [8, 0, 4];

const READER: [i16; 4] = [0, 0, 4, 1];

/// Makes the calls in an ample host.
fn diaries(rt: &impl Abort, alloc: Global, calls: &[Call<'_, Diary>]) {
    make(rt, alloc, AMPLE, None, calls);
}

#[test]
fn an_instance_is_activated_once(rt: HostRuntime) {
    let calls = [
        Create(0, Diary, 0, &[8, 0, 0], Ok(())),
        Get(0, &[INIT, ACTIVATE, CONTROL]),
        Process(0, &[7], &[7]),
        Process(0, &[7], &[7]),
        Get(0, &[INIT, ACTIVATE, CONTROL, PROCESS, PROCESS, CONTROL]),
    ];
    diaries(&rt, rt.alloc(), &calls);
}

#[test]
fn members_of_a_group_take_turns(rt: HostRuntime) {
    let calls = [
        Create(0, Diary, 0, &[8, 0, 0], Ok(())),
        Create(1, Diary, 0, &[8, 0, 0], Ok(())),
        Process(0, &[7], &[7]),
        Process(1, &[7], &[7]),
        Process(1, &[7], &[7]),
        Process(0, &[7], &[7]),
        Get(
            0,
            &[
                INIT, ACTIVATE, PROCESS, DEACTIVATE, ACTIVATE, PROCESS, CONTROL,
            ],
        ),
        Get(
            1,
            &[
                INIT, ACTIVATE, PROCESS, PROCESS, DEACTIVATE, ACTIVATE, CONTROL,
            ],
        ),
    ];
    diaries(&rt, rt.alloc(), &calls);
}

#[test]
fn groups_do_not_disturb_one_another(rt: HostRuntime) {
    let calls = [
        Create(0, Diary, 0, &[8, 0, 0], Ok(())),
        Create(1, Diary, 1, &[8, 0, 0], Ok(())),
        Process(0, &[7], &[7]),
        Process(1, &[7], &[7]),
        Process(0, &[7], &[7]),
        Get(0, &[INIT, ACTIVATE, PROCESS, PROCESS, CONTROL]),
        Get(1, &[INIT, ACTIVATE, PROCESS, CONTROL]),
    ];
    diaries(&rt, rt.alloc(), &calls);
}

/// The active member is deactivated before its block goes, and then told of the new one; the new instance isn't told.
#[test]
fn a_replaced_block_deactivates_and_is_told(rt: HostRuntime) {
    let calls = [
        Create(0, Diary, 0, &[8, 0, 0], Ok(())),
        Create(2, Diary, 1, &[8, 0, 0], Ok(())),
        Process(0, &[7], &[7]),
        Create(1, Diary, 0, &[100, 0, 0], Ok(())),
        Get(
            0,
            &[
                INIT, ACTIVATE, PROCESS, DEACTIVATE, MOVED, ACTIVATE, CONTROL,
            ],
        ),
        Get(1, &[INIT, ACTIVATE, CONTROL]),
        Get(2, &[INIT, ACTIVATE, CONTROL]),
    ];
    diaries(&rt, rt.alloc(), &calls);
}

#[test]
fn a_first_block_is_told_to_nobody(rt: HostRuntime) {
    let calls = [
        Create(0, Diary, 0, &[8, 0, 0], Ok(())),
        Process(0, &[7], &[7]),
        Create(1, Diary, 0, &[0, 8, 0], Ok(())),
        Get(0, &[INIT, ACTIVATE, PROCESS, CONTROL]),
        Get(1, &[INIT, ACTIVATE, CONTROL]),
    ];
    diaries(&rt, rt.alloc(), &calls);
}

/// A first block in one space beside a replaced one in another: each member is told once.
#[test]
fn a_first_block_beside_a_replaced_one_is_told_once(rt: HostRuntime) {
    let calls = [
        Create(0, Diary, 0, &[8, 0, 0], Ok(())),
        Create(1, Diary, 0, &[8, 0, 0], Ok(())),
        Process(0, &[7], &[7]),
        Create(2, Diary, 0, &[100, 8, 0], Ok(())),
        Get(
            0,
            &[
                INIT, ACTIVATE, PROCESS, DEACTIVATE, MOVED, ACTIVATE, CONTROL,
            ],
        ),
        Get(1, &[INIT, MOVED, ACTIVATE, CONTROL]),
    ];
    diaries(&rt, rt.alloc(), &calls);
}

#[test]
fn the_owner_of_a_moved_record_alone_is_told(rt: HostRuntime) {
    let calls = [
        Create(0, Diary, 0, &[8, 0, 0], Ok(())),
        Create(1, Diary, 0, &[8, 0, 0], Ok(())),
        Create(2, Diary, 1, &[8, 0, 0], Ok(())),
        Delete(0, Ok(())),
        Process(1, &[7], &[7]),
        Step(Space::Saram, true),
        Get(1, &[INIT, ACTIVATE, PROCESS, MOVED, CONTROL]),
        Get(2, &[INIT, ACTIVATE, CONTROL]),
    ];
    diaries(&rt, rt.alloc(), &calls);
}

/// A move deactivates nobody: the scratch words go with the block.
#[test]
fn each_member_is_told_once_of_a_moved_block(rt: HostRuntime) {
    let calls = [
        Create(0, Diary, 0, &[8, 0, 0], Ok(())),
        Create(1, Diary, 1, &[8, 0, 0], Ok(())),
        Create(2, Diary, 1, &[8, 0, 0], Ok(())),
        Create(3, Diary, 2, &[8, 0, 0], Ok(())),
        Delete(0, Ok(())),
        Process(1, &[7], &[7]),
        Step(Space::Daram, true),
        Get(1, &[INIT, ACTIVATE, PROCESS, MOVED, CONTROL]),
        Get(2, &[INIT, MOVED, ACTIVATE, CONTROL]),
        Get(3, &[INIT, ACTIVATE, CONTROL]),
    ];
    diaries(&rt, rt.alloc(), &calls);
}

/// The object of instance 0 is moved first, and then the record that it shares with instance 1.
#[test]
fn all_that_share_a_moved_record_are_told(rt: HostRuntime) {
    let calls = [
        Create(5, Diary, 0, &[0, 0, 0], Ok(())),
        Create(0, Diary, 1, &[0, 0, 4], Ok(())),
        Create(1, Diary, 2, &[0, 0, 4], Ok(())),
        Create(2, Diary, 3, &[0, 0, 8], Ok(())),
        Delete(5, Ok(())),
        Step(Space::External, true),
        Step(Space::External, true),
        Get(0, &[INIT, MOVED, MOVED, ACTIVATE, CONTROL]),
        Get(1, &[INIT, MOVED, ACTIVATE, CONTROL]),
        Get(2, &[INIT, ACTIVATE, CONTROL]),
    ];
    diaries(&rt, rt.alloc(), &calls);
}

#[test]
fn a_release_deactivates_once(rt: HostRuntime) {
    let calls = [
        Create(0, Diary, 0, &[8, 0, 0], Ok(())),
        Process(0, &[7], &[7]),
        Release(0, Ok(true)),
        Release(0, Ok(false)),
        Get(0, &[INIT, ACTIVATE, PROCESS, DEACTIVATE, ACTIVATE, CONTROL]),
    ];
    diaries(&rt, rt.alloc(), &calls);
}

#[test]
fn a_deletion_of_the_active_member_calls_no_other(rt: HostRuntime) {
    let calls = [
        Create(0, Diary, 0, &[8, 0, 0], Ok(())),
        Create(1, Diary, 0, &[8, 0, 0], Ok(())),
        Process(0, &[7], &[7]),
        Delete(0, Ok(())),
        Get(1, &[INIT, ACTIVATE, CONTROL]),
    ];
    diaries(&rt, rt.alloc(), &calls);
}

#[test]
fn a_refused_control_calls_nobody(rt: HostRuntime) {
    let calls = [
        Create(0, Diary, 0, &[8, 0, 0], Ok(())),
        Create(1, Diary, 0, &[8, 0, 0], Ok(())),
        Process(0, &[7], &[7]),
        SetRefused(1, &[1], Refusal::Command),
        Get(0, &[INIT, ACTIVATE, PROCESS, CONTROL]),
        Get(1, &[INIT, ACTIVATE, CONTROL]),
    ];
    diaries(&rt, rt.alloc(), &calls);
}

/// Two instances share the write-once record; the active one is told as the idle one is, and no other instance.
fn sharers_of_a_moved_record<'a>(
    rt: &impl Abort,
    alloc: Global,
    kept: &'a [i16],
    other: &'a [i16],
) {
    let calls = [
        Create(5, Diary, 0, &[0, 0, 0], Ok(())),
        Create(0, Diary, 1, kept, Ok(())),
        Create(1, Diary, 2, kept, Ok(())),
        Create(2, Diary, 3, other, Ok(())),
        Delete(5, Ok(())),
        Process(0, &[7], &[7]),
        Step(Space::External, true),
        Step(Space::External, true),
        Get(0, &[INIT, ACTIVATE, PROCESS, MOVED, MOVED, CONTROL]),
        Get(1, &[INIT, MOVED, ACTIVATE, CONTROL]),
        Get(2, &[INIT, ACTIVATE, CONTROL]),
    ];
    diaries(rt, alloc, &calls);
}

#[test]
fn filters_that_share_constants_are_told_of_their_move(rt: HostRuntime) {
    sharers_of_a_moved_record(&rt, rt.alloc(), &FILTER_WITH_CONSTANTS, &[8, 0, 8]);
}

#[test]
fn readers_that_share_a_table_are_told_of_its_move(rt: HostRuntime) {
    sharers_of_a_moved_record(&rt, rt.alloc(), &READER, &[0, 0, 8, 1]);
}

/// Feeds a channel of one member: a block and then a sample while it is idle, active, and idle again.
fn feeds_of_a_channel(rt: &impl Abort, alloc: Global, kept: &[i16]) {
    let calls = [
        channel_calls::Call::Create(0, Diary, 0, kept, Ok(())),
        channel_calls::Call::Chain(0, &[0], Ok(())),
        channel_calls::Call::Feed(0, &[7, 8], &[7, 8]),
        channel_calls::Call::FeedSample(0, 9, None, &[9]),
        channel_calls::Call::Feed(0, &[7, 8], &[7, 8]),
        channel_calls::Call::Release(0, Ok(true)),
        channel_calls::Call::FeedSample(0, 9, None, &[9]),
        channel_calls::Call::Get(
            0,
            &[
                INIT, ACTIVATE, PROCESS, PROCESS, PROCESS, DEACTIVATE, ACTIVATE, PROCESS, CONTROL,
            ],
        ),
    ];
    let host = Host::new(alloc, AMPLE, None).expect(rt, "memory");
    let mut channels = Channels::new(host, 1);
    channel_calls::make(rt, &mut channels, &calls);
    channels.close();
}

#[test]
fn each_feed_of_a_channel_is_a_call_of_a_filter(rt: HostRuntime) {
    feeds_of_a_channel(&rt, rt.alloc(), &FILTER);
}

#[test]
fn each_feed_of_a_channel_is_a_call_of_a_filter_that_shares_constants(rt: HostRuntime) {
    feeds_of_a_channel(&rt, rt.alloc(), &FILTER_WITH_CONSTANTS);
}

#[test]
fn each_feed_of_a_channel_is_a_call_of_a_reader(rt: HostRuntime) {
    feeds_of_a_channel(&rt, rt.alloc(), &READER);
}
