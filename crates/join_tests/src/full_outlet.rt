//! A full outlet: it holds 64 messages, and a further one is put only after one was taken.

ghost use Rattle.std.specs.Prelude.{◌≡◌, false};
ghost use Rattle.deliver_core.specs.Byes.{is_bye};
ghost use Rattle.deliver_core.specs.OutletCalls.{IsFreshPort, IsOpenPort};
ghost use Rattle.deliver_core.specs.Ports.{index_of, IsTapOf};

use crate::outlet::last_port;
use deliver_core::{Body, Message, Outlet, Port, Tap};
use std::sync::Wait;
use std::sync::atomic::{AtomicU64, Ordering};
use std::test::Fail;
use std::thread;
use std::thread::Threads;

/// The capacity of an outlet, in messages.
const ROOM: u64 = 64;

/// The number of checks that the message after these waits.
const LOOKS: u32 = 20_000;

/// The stage of the thread that puts one more message: 0 at first, and then one of these.
const BEGUN: u64 = 1;

const THROUGH: u64 = 2;

/// The end of a task with this many batches, from port 0.
fn end(count: u64) -> Message
    ensures port { result.port ≡ 0 }
    ensures body { is_bye result ≡ false }
{
    Message {
        port: 0,
        task: 0,
        body: Body::End(count),
    }
}

/// Puts the ends 0 to 63, for which there is room.
fn fill<R: Wait>(rt: &R, outlet: &Outlet, port: &mut Port)
    requires port { IsOpenPort outlet.now port.old }
    requires index { index_of port.old ≡ 0 }
    ensures port { IsOpenPort outlet.now port.new }
    ensures index { index_of port.new ≡ 0 }
{
    for count in 0..ROOM {
        outlet.put(rt, port, end(count));
    }
}

/// Puts one more end, and records when it starts and when it is done.
fn put_one_more<R: Wait>(rt: &R, outlet: &Outlet, mut port: Port, stage: &AtomicU64)
    requires port { IsOpenPort outlet.now port }
    requires index { index_of port ≡ 0 }
{
    stage.store(BEGUN, Ordering::SeqCst);
    outlet.put(rt, &mut port, end(ROOM));
    stage.store(THROUGH, Ordering::SeqCst);
}

/// Waits until the other thread has reached this stage.
fn await_stage<R: Wait>(rt: &R, stage: &AtomicU64, wanted: u64) {
    for _ in rt.forever() {
        if stage.load(Ordering::SeqCst) >= wanted {
            break;
        }
        thread::yield_now();
    }
}

/// Whether the other thread never gets through while it is checked.
fn is_waiting(stage: &AtomicU64) -> bool {
    for _ in 0..LOOKS {
        if stage.load(Ordering::SeqCst) != BEGUN {
            return false;
        }
        thread::yield_now();
    }
    true
}

/// Whether the ends from this one to the last are taken, and then nothing.
fn takes_from<R: Wait>(rt: &R, outlet: &Outlet, tap: &mut Tap, first: u64) -> bool
    requires { IsTapOf outlet.now tap.old }
{
    for count in first..=ROOM {
        if outlet.take(rt, tap) != Some(end(count)) {
            return false;
        }
    }
    outlet.take(rt, tap).is_none()
}

/// Takes all ends, the first of which lets the last one through. Returns whether that one waited
/// and all were taken.
fn takes_all<R: Wait>(rt: &R, outlet: &Outlet, mut tap: Tap, stage: &AtomicU64) -> bool
    requires { IsTapOf outlet.now tap }
{
    await_stage(rt, stage, BEGUN);
    let has_waited = is_waiting(stage);
    let first = outlet.take(rt, &mut tap);
    await_stage(rt, stage, THROUGH);
    has_waited && first == Some(end(0)) && takes_from(rt, outlet, &mut tap, 1)
}

/// Fills the outlet, then puts in one thread and takes in another, and returns whether all messages
/// are taken as they were put.
fn runs<R: Threads + Wait + Sync>(rt: &R, outlet: &Outlet, mut port: Port, tap: Tap) -> bool
    requires port { IsFreshPort outlet.now port }
    requires index { index_of port ≡ 0 }
    requires tap { IsTapOf outlet.now tap }
{
    fill(rt, outlet, &mut port);
    let stage = AtomicU64::new(0);
    let shared = &stage;
    let ((), is_taken) = thread::join(
        rt,
        move || -> ()
            requires { IsOpenPort outlet.now port × (index_of port ≡ 0) }
        { put_one_more(rt, outlet, port, shared) },
        move || -> bool
            requires { IsTapOf outlet.now tap }
        { takes_all(rt, outlet, tap, shared) },
    );
    is_taken
}

#[test]
fn full_outlet(rt: HostRuntime) -> Result<(), Fail> {
    let (outlet, mut ports, tap) = Outlet::new(rt.alloc(), 1)?;
    let port = last_port(&outlet, &mut ports).ok_or("the port")?;
    assert!(rt; port.index() == 0);
    assert!(rt; runs(&rt, &outlet, port, tap));
    Ok(())
}
