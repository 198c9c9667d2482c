//! Runs of calls through the library for C.
//!
//! An entry point of the library says of one call that the channels served it. The law here is what follows for any list of calls: the main
//! theorem, without a script.
ghost use Rattle.test_runs.specs.Served.{ServedCallsGoByHistories};

use console_spec::{births_go_by_their_histories, calls_run_on_the_host};
use gateway_kinds::{GatewayKind, gateway_kinds_are_lawful};

/// The law of runs: where channels refined a state, and each call of a list was served, one after another, the calls are a run of the
/// specification from that state; and each instance, from its creation on, gives and answers what its algorithm means for what it was
/// given since then, whatever else was called.
pub fn served_calls_go_by_histories()
    ensures { ServedCallsGoByHistories }
{
    calls_run_on_the_host::<GatewayKind>();
    births_go_by_their_histories::<GatewayKind>();
    gateway_kinds_are_lawful();
}
