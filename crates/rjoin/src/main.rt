//! The program: its commands over the host's files and standard streams.
#![tactic(auto)]

mod host;
mod storing;

use crate::host::HostFiles;
use command_core::run_program;
use report_core::ToWrite;
use std::process::ExitCode;

fn main(rt: HostRuntime) -> ExitCode {
    let mut output = ToWrite::new(rt.stdout());
    let mut errors = ToWrite::new(rt.stderr());
    let mut files = HostFiles { rt: &rt };
    ExitCode::from(run_program(&rt, &mut files, &mut output, &mut errors))
}
