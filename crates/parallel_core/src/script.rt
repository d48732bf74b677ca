//! Sending scripts: the batches of a task's row, and then its end.

ghost use Rattle.std.specs.Prelude.{◌≡◌, ◌<◌, ◌++◌, ◌∷◌, [], false, IfErr, IfOk};
ghost use Rattle.deliver_core.specs.Byes.{is_bye_body};
ghost use Rattle.deliver_core.specs.OutletCalls.{IsOpenPort};
ghost use Rattle.deliver_core.specs.Scripts.{script, body_content};
ghost use Rattle.parallel_core.specs.Sending.{StaysOpen, Says, SaysPart};

use crate::job::Job;
use deliver_core::{Body, Message, Outlet, Port};
use std::alloc::AllocError;
use std::sync::Wait;

/// Sends the script of a task: its row in batches of the job's size, the last of which is what is
/// left, and then the end. Where memory is refused, it stops after a whole message.
pub(crate) fn send_script<R: Wait, P>(
    rt: &R,
    job: &Job<'_, P>,
    port: &mut Port,
    task: u32,
    row: &[(u32, u32)],
) -> Result<(), AllocError>
    requires port { IsOpenPort job.now.outlet.now port.old }
    requires batch { 0 < job.now.batch }
    ensures port { StaysOpen job.now.outlet.now port.old port.new }
    ensures ok { let sent = script task job.now.batch row.now in
        IfOk result (λ _. Says port.old port.new sent) }
    ensures err { let sent = script task job.now.batch row.now in
        IfErr result (λ _. SaysPart port.old port.new sent) }
{
    let mut number = 0;
    for piece in row.chunks(job.batch as usize) {
        let pairs = Vec::from_slice(job.alloc, piece)?;
        send(rt, job.outlet, port, task, Body::Batch(number, pairs));
        number += 1;
    }
    send(rt, job.outlet, port, task, Body::End(number));
    Ok(())
}

/// Sends a message of a task, which is no Bye.
fn send<R: Wait>(rt: &R, outlet: &Outlet, port: &mut Port, task: u32, body: Body)
    requires port { IsOpenPort outlet.now port.old }
    requires body { is_bye_body body ≡ false }
    ensures port { StaysOpen outlet.now port.old port.new }
    ensures says { Says port.old port.new (body_content task body ∷ []) }
{
    let message = Message {
        port: port.index(),
        task,
        body,
    };
    outlet.put(rt, port, message);
}
