#![tactic(auto)]
//! Prints a RAM image, read on standard input, as rows of words, or as the nodes of an index.

mod nodes;
mod page;
mod request;

use nodes::index_text;
use page::image_text;
use request::Request;
use std::env;
use std::io::Read;
use std::process::ExitCode;

fn run(rt: &HostRuntime) -> anyhow::Result<()> {
    let heap = rt.alloc();
    let args: Vec<String> = env::args(rt)?.skip(1).collect(heap)?;
    let request = Request::from_args(args.as_slice())?;
    let mut bytes = Vec::new(heap);
    rt.stdin().read_to_end(&mut bytes)?;
    let image = bytes.as_mut_slice();
    let text = match request.nodes {
        None => image_text(heap, image, request.width)?,
        Some(count) => index_text(heap, image, request.width, count)?,
    };
    rt.print(text)?;
    Ok(())
}

// stays as in the other program with a message of its own: a crate for the two would be longer than these lines
fn main(rt: HostRuntime) -> ExitCode {
    match run(&rt) {
        Ok(()) => ExitCode::SUCCESS,
        Err(error) => {
            let _ = eprintln!(rt; "dump: {error}");
            ExitCode::FAILURE
        }
    }
}
