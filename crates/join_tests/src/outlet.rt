//! Rows of the outlet, its allocations, and sixteen ports at once.

ghost use Rattle.std.specs.Prelude.{◌≡◌, ◌≤◌, true, false, IfSome, IfOk, All};
ghost use Rattle.deliver_core.specs.Byes.{is_bye};
ghost use Rattle.deliver_core.specs.OutletCalls.{IsFreshPort, IsEndedPort};
ghost use Rattle.deliver_core.specs.Ports.{IsTapOf};

use deliver_core::{Body, Message, Outlet, Port, Tap, outlet_law};
use pair_core::MAX_WORKERS;
use std::alloc::{AllocError, Global};
use std::process::Abort;
use std::sync::Wait;
use std::test::Fail;
use std::thread;
use std::thread::Threads;
use std::time::{Clock, Duration};

/// The last of these ports.
pub(crate) fn last_port(outlet: &Outlet, ports: &mut Vec<Port>) -> Option<Port>
    requires { All (IsFreshPort outlet.now) ports.old.items }
    ensures rest { All (IsFreshPort outlet.now) ports.new.items }
    ensures port { IfSome result (IsFreshPort outlet.now) }
{
    ports.pop()
}

/// Batch `number` of task `port`, with one pair.
fn batch(alloc: Global, port: u32, number: u64) -> Result<Message, AllocError>
    ensures port { IfOk result (λ m. m.port ≡ port) }
    ensures body { IfOk result (λ m. is_bye m ≡ false) }
{
    let pairs = Vec::from_slice(alloc, &[(port, 7)])?;
    Ok(Message {
        port,
        task: port,
        body: Body::Batch(number, pairs),
    })
}

/// The end of task `port`, with this number of batches.
fn end(port: u32, batches: u64) -> Message
    ensures port { result.port ≡ port }
    ensures body { is_bye result ≡ false }
{
    Message {
        port,
        task: port,
        body: Body::End(batches),
    }
}

/// Whether these messages are taken next, in this order; `None` for none waiting.
fn takes<R: Wait>(rt: &R, outlet: &Outlet, tap: &mut Tap, wanted: &[Option<Message>]) -> bool
    requires { IsTapOf outlet.now tap.old }
{
    for want in wanted {
        if outlet.take(rt, tap) != *want {
            return false;
        }
    }
    true
}

/// Puts `batches` batches of the port's own task, their end and the port's Bye. Every fourth port
/// is slow.
fn put_all<R: Wait + Clock>(
    rt: &R,
    alloc: Global,
    outlet: &Outlet,
    mut port: Port,
    batches: u64,
) -> Port
    requires { IsFreshPort outlet.now port }
    ensures { IsEndedPort outlet.now result }
{
    let index = port.index();
    for number in 0..batches {
        let Ok(message) = batch(alloc, index, number) else {
            outlet.bye(rt, &mut port, false);
            return port;
        };
        outlet.put(rt, &mut port, message);
        if index % 4 == 3 && number % 256 == 0 {
            thread::sleep(rt, Duration::from_millis(1));
        }
    }
    outlet.put(rt, &mut port, end(index, batches));
    outlet.bye(rt, &mut port, true);
    port
}

/// Whether a message is the next of its port, of which `taken` messages were taken.
fn is_next(message: &Message, taken: u64, batches: u64) -> bool {
    match &message.body {
        Body::Batch(number, pairs) => {
            *number == taken && pairs.as_slice() == [(message.port, 7)].as_slice()
        }
        Body::End(count) => (*count, taken) == (batches, batches),
        Body::Bye(ok) => *ok && taken == batches.saturating_add(1),
    }
}

/// Takes the messages of all ports until each has said bye, and checks that each port's messages
/// come whole and in order.
fn take_all<R: Wait + Abort>(
    rt: &R,
    outlet: &Outlet,
    mut tap: Tap,
    ports: usize,
    batches: u64,
) -> Tap
    requires { IsTapOf outlet.now tap }
    ensures { IsTapOf outlet.now result }
{
    let mut taken = [0u64; 16];
    let mut left = ports;
    for _ in rt.forever() {
        if left == 0 {
            break;
        }
        let Some(message) = outlet.take(rt, &mut tap) else {
            thread::yield_now();
            continue;
        };
        let count = taken
            .get_mut(message.port as usize)
            .expect(rt, "one of the ports");
        assert!(rt; is_next(&message, *count, batches));
        if matches!(&message.body, Body::Bye(_)) {
            left -= 1;
        }
        *count = count.saturating_add(1);
    }
    tap
}

/// Meets a port twice, and returns whether it stays the same and nothing more is taken.
fn is_met<R: Wait>(rt: &R, outlet: &Outlet, tap: &mut Tap, port: Port) -> bool
    requires tap { IsTapOf outlet.now tap.old }
    requires port { IsEndedPort outlet.now port }
    ensures { IsTapOf outlet.now tap.new }
{
    let index = port.index();
    let spent = outlet.meet(rt, tap, port);
    let is_first_none = outlet.take(rt, tap).is_none();
    let spent = outlet.meet(rt, tap, spent);
    let is_same = (spent.index(), spent.said_bye()) == (index, true);
    is_first_none && is_same && outlet.take(rt, tap).is_none()
}

/// Whether each port is met twice.
fn are_met<R: Wait>(rt: &R, outlet: &Outlet, tap: &mut Tap, mut ports: Vec<Port>) -> bool
    requires tap { IsTapOf outlet.now tap.old }
    requires ports { All (IsEndedPort outlet.now) ports.items }
{
    while let Some(port) = ports.pop() {
        if !is_met(rt, outlet, tap, port) {
            return false;
        }
    }
    true
}

/// Puts in a thread for each port.
fn put_in_threads<R: Threads + Wait + Clock + Sync>(
    rt: &R,
    alloc: Global,
    outlet: &Outlet,
    ports: Vec<Port>,
    batches: u64,
) -> Result<Vec<Port>, AllocError>
    requires { All (IsFreshPort outlet.now) ports.items }
    ensures { IfOk result (λ ended. All (IsEndedPort outlet.now) ended.items) }
{
    thread::map_vec(rt, ports, &|port| put_all(rt, alloc, outlet, port, batches))
}

/// Puts in a thread for each port, and takes in another.
fn exchange<R: Threads + Wait + Clock + Abort + Sync>(
    rt: &R,
    alloc: Global,
    ports: u32,
    batches: u64,
) -> Result<(), AllocError>
    requires some { 1 ≤ ports }
    requires few { ports ≤ 16 }
{
    let (outlet, ports, tap) = Outlet::new(alloc, ports)?;
    let count = ports.len();
    let shared = &outlet;
    let (ended, mut tap) = thread::join(
        rt,
        || -> Result<Vec<Port>, AllocError>
            requires { All (IsFreshPort shared.now) ports.items }
            ensures { IfOk result (λ ended. All (IsEndedPort shared.entry.now) ended.items) }
        { put_in_threads(rt, alloc, shared, ports, batches) },
        || -> Tap
            requires { IsTapOf shared.now tap }
            ensures { IsTapOf shared.entry.now result }
        { take_all(rt, shared, tap, count, batches) },
    );
    assert!(rt; are_met(rt, shared, &mut tap, ended?));
    Ok(())
}

/// The batch, made again if an allocation fails.
fn batch_at_last(alloc: Global, port: u32, number: u64) -> Result<Message, AllocError>
    ensures port { IfOk result (λ m. m.port ≡ port) }
    ensures body { IfOk result (λ m. is_bye m ≡ false) }
{
    match batch(alloc, port, number) {
        Ok(message) => Ok(message),
        Err(AllocError) => batch(alloc, port, number),
    }
}

/// Puts a batch and a Bye at one port and an end at another, and returns whether only the first has
/// said bye.
fn put_at_two<R: Wait>(
    rt: &R,
    alloc: Global,
    outlet: &Outlet,
    zero: &mut Port,
    one: &mut Port,
) -> Result<bool, AllocError>
    requires zero { IsFreshPort outlet.now zero.old }
    requires one { IsFreshPort outlet.now one.old }
{
    let batch = batch_at_last(alloc, zero.index(), 5)?;
    outlet.put(rt, zero, batch);
    outlet.put(rt, one, end(one.index(), 0));
    outlet.bye(rt, zero, true);
    Ok(zero.said_bye() && !one.said_bye())
}

/// Whether these messages are taken, in the order in which they were put, and then nothing.
fn takes_of_two<R: Wait>(
    rt: &R,
    alloc: Global,
    outlet: &Outlet,
    tap: &mut Tap,
) -> Result<bool, AllocError>
    requires { IsTapOf outlet.now tap.old }
{
    let bye = Message {
        port: 0,
        task: 0,
        body: Body::Bye(true),
    };
    let batch = batch_at_last(alloc, 0, 5)?;
    Ok(takes(
        rt,
        outlet,
        tap,
        &[Some(batch), Some(end(1, 0)), Some(bye), None],
    ))
}

/// Whether the messages of the ports 0 and 1 are taken as they were put; `None` without memory.
fn passes_on<R: Wait>(
    rt: &R,
    alloc: Global,
    outlet: &Outlet,
    mut ports: Vec<Port>,
    mut tap: Tap,
) -> Option<bool>
    requires ports { All (IsFreshPort outlet.now) ports.items }
    requires tap { IsTapOf outlet.now tap }
{
    let mut one = last_port(outlet, &mut ports)?;
    let mut zero = last_port(outlet, &mut ports)?;
    let are_all = (zero.index(), one.index(), ports.len()) == (0, 1, 0);
    let are_put = put_at_two(rt, alloc, outlet, &mut zero, &mut one).ok()?;
    let are_taken = takes_of_two(rt, alloc, outlet, &mut tap).ok()?;
    Some(are_all && are_put && are_taken)
}

#[test]
fn board_and_outlet(rt: HostRuntime) -> Result<(), Fail> {
    let (outlet, ports, tap) = Outlet::new(rt.alloc(), 2)?;
    assert!(rt; passes_on(&rt, rt.alloc(), &outlet, ports, tap) == Some(true));
    Ok(())
}

/// An outlet, made again if an allocation fails.
fn outlet_at_last(alloc: Global, ports: u32) -> Result<(Outlet, Vec<Port>, Tap), AllocError>
    requires ports { (1 ≤ ports) × (ports ≤ MAX_WORKERS) }
    ensures fresh { IfOk result (λ r. All (IsFreshPort r.0) r.1.items) }
    ensures tap { IfOk result (λ r. IsTapOf r.0 r.2) }
{
    match Outlet::new(alloc, ports) {
        Ok(made) => Ok(made),
        Err(AllocError) => Outlet::new(alloc, ports),
    }
}

/// Passes with each allocation failing in turn.
#[test]
fn refused_6(rt: HostRuntime) -> Result<(), Fail> {
    let (outlet, ports, tap) = outlet_at_last(rt.alloc(), 2)?;
    assert!(rt; passes_on(&rt, rt.alloc(), &outlet, ports, tap) == Some(true));
    Ok(())
}

#[test]
fn outlet_thousand(rt: HostRuntime) -> Result<(), AllocError> {
    outlet_law();
    exchange(&rt, rt.alloc(), 1, 1000)
}

#[test]
fn sixteen_ports(rt: HostRuntime) -> Result<(), AllocError> {
    exchange(&rt, rt.alloc(), 16, 2000)
}
