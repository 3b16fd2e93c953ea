// The program `netlist`: reads plan.txt in the current folder, and prints the netlist of its plan.
//
// A fault prints its line, and ends the program with status 1.
#![tactic(auto)]

use anyhow::anyhow;
use fault_line::{Part, render};
use judge::judge;
use node::{Layer, MAX_NODES, Node};
use seal::Draft;
use std::alloc::{AllocError, Global};
use std::fs;
use std::process::ExitCode;
use text::{Fault, MAX_BYTES, Report};
use wiring::netlist;

const PLAN: &str = "plan.txt";

// What ends the program before its text is printed.
#[derive(Drop)]
enum Stop {
    // A fault, and the part that it lies in.
    Fault(Part, Report),
    // No memory for the text.
    Memory(AllocError),
}

impl From<AllocError> for Stop {
    fn from(error: AllocError) -> Stop {
        Stop::Memory(error)
    }
}

// The netlist of a plan, or what ends the program first.
fn draw(heap: Global, text: &[u8]) -> Result<Vec<u8>, Stop> {
    let mut nodes = [Node::Layer(Layer::Lvt); MAX_NODES];
    let count = judge(text, &mut nodes).map_err(|fault| Stop::Fault(Part::Plan, fault.report()))?;
    let sealed = Draft::new(&nodes[..count]).seal();
    let mut out = vec![in heap; 0u8; MAX_BYTES]?;
    let size = netlist(sealed, &mut out).map_err(|fault| Stop::Fault(
        Part::Netlist,
        fault.report(),
    ))?;
    out.truncate(size);
    Ok(out)
}

// Reads the plan, and prints its netlist, or the line of the first fault.
fn main(rt: HostRuntime) -> anyhow::Result<ExitCode> {
    let text = fs::read(&rt, PLAN).map_err(|_| anyhow!("cannot read plan.txt"))?;
    match draw(rt.alloc(), text.as_slice()) {
        Ok(drawing) => {
            rt.write_all(drawing.as_slice())?;
            Ok(ExitCode::SUCCESS)
        }
        Err(Stop::Fault(part, report)) => {
            rt.write_all(render(part, report).as_bytes())?;
            Ok(ExitCode::FAILURE)
        }
        Err(Stop::Memory(error)) => Err(error.into()),
    }
}
