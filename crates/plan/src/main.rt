// The program `plan`: reads plan.txt and stock.txt in the current folder, and prints the listing of the plan
// against the stock.
//
// The plan is judged first, then the stock, then the listing. A fault prints its line, and ends the program with
// status 1.
#![tactic(auto)]

use anyhow::anyhow;
use fault_line::{Part, render};
use judge::judge;
use node::{Layer, MAX_NODES, Node};
use planner::plan;
use seal::Draft;
use std::alloc::{AllocError, Global};
use std::fs;
use std::process::ExitCode;
use text::{Fault, MAX_BYTES, Report};

const PLAN: &str = "plan.txt";

const STOCK: &str = "stock.txt";

// What ends the program before its text is printed.
#[derive(Drop)]
enum Stop {
    // A fault, and the part that it lies in.
    Fault(Part, Report),
    // No memory for the text.
    Memory(AllocError),
}

impl From<AllocError> for Stop {
    fn from(error: AllocError) -> Stop {
        Stop::Memory(error)
    }
}

// The listing of a plan against a stock, or what ends the program first.
fn list(heap: Global, text: &[u8], stock: &[u8]) -> Result<Vec<u8>, Stop> {
    let mut nodes = [Node::Layer(Layer::Lvt); MAX_NODES];
    let count = judge(text, &mut nodes).map_err(|fault| Stop::Fault(Part::Plan, fault.report()))?;
    let stock = stock::read(stock).map_err(|fault| Stop::Fault(Part::Stock, fault.report()))?;
    let sealed = Draft::new(&nodes[..count]).seal();
    let mut out = vec![in heap; 0u8; MAX_BYTES]?;
    let planned = plan(sealed, &stock, &mut out).map_err(|fault| Stop::Fault(
        Part::Stock,
        fault.report(),
    ))?;
    out.truncate(planned.size);
    Ok(out)
}

// Reads both files, and prints the listing, or the line of the first fault.
fn main(rt: HostRuntime) -> anyhow::Result<ExitCode> {
    let text = fs::read(&rt, PLAN).map_err(|_| anyhow!("cannot read plan.txt"))?;
    let stock = fs::read(&rt, STOCK).map_err(|_| anyhow!("cannot read stock.txt"))?;
    match list(rt.alloc(), text.as_slice(), stock.as_slice()) {
        Ok(listing) => {
            rt.write_all(listing.as_slice())?;
            Ok(ExitCode::SUCCESS)
        }
        Err(Stop::Fault(part, report)) => {
            rt.write_all(render(part, report).as_bytes())?;
            Ok(ExitCode::FAILURE)
        }
        Err(Stop::Memory(error)) => Err(error.into()),
    }
}
