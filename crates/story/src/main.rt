#![tactic(auto)]
//! A camera task is cut in the middle of a write, a stop task reads the same node, is turned back, and then finds the
//! parcel. Each line is a run of steps that report the same.

use index::Index;
use memory::{Memory, WordMemory};
use order::{NumberOrder, Order};
use rules::{Outcome, Refusal, Report};
use std::{fmt, io};

/// The word for a report.
#[derive(Clone, Copy)]
struct Said(Report);

impl fmt::Display for Said {
    fn fmt<W: fmt::Write>(&self, f: &mut fmt::Formatter<W>) -> fmt::Result {
        f.write_str(match self.0 {
            Report::GoneOn(_) => "gone on",
            Report::TurnedBack(_) => "turned back",
            Report::Latched(_) => "latched",
            Report::Published(_) => "published",
            Report::Posted(_) => "posted",
            Report::Unchanged(_) => "unchanged",
            Report::Found { .. } => "found",
            Report::Absent(_) => "absent",
            Report::Ended { outcome, .. } => match outcome {
                Outcome::Stored => "stored",
                Outcome::Replaced(_) => "replaced",
                Outcome::Untold => "stored untold",
                Outcome::Full => "full",
                Outcome::Worn => "worn",
            },
            Report::Abandoned { published: false } => "abandoned unpublished",
            Report::Abandoned { published: true } => "abandoned published",
        })
    }
}

/// Steps in a row that all reported the same.
#[derive(Clone, Copy)]
struct Run {
    first: u64,
    last: u64,
    report: Report,
}

/// A task: its name, its seat, and how many steps it has made.
#[derive(Drop)]
struct Task {
    name: &'static str,
    seat: u64,
    made: u64,
}

impl Task {
    fn new(name: &'static str, seat: u64) -> Task {
        Task {
            name,
            seat,
            made: 0,
        }
    }

    /// Prints a run of its steps.
    fn tell(&self, rt: &HostRuntime, run: Run) -> io::Result<()> {
        let name = self.name;
        let Run {
            first,
            last,
            report,
        } = run;
        let said = Said(report);
        let node = report.node();
        if first == last {
            print!(rt; "  {name} {last:>9}: {said}, node {node}")?;
        } else {
            print!(rt; "  {name} {first:>2} to {last:>3}: {said}, node {node}")?;
        }
        match report {
            Report::Found { value, .. }
            | Report::Ended {
                outcome: Outcome::Replaced(value),
                ..
            } => println!(rt; ", value {value}"),
            _ => println!(rt),
        }
    }

    /// Makes steps until it has made `most` in all, its operation ends or a step is refused, and prints them.
    // stays a loop of its own: it joins the steps that report the same
    fn walk<M: Memory, O: Order>(
        &mut self,
        rt: &HostRuntime,
        index: &mut Index<M, O>,
        most: u64,
    ) -> io::Result<()> {
        let mut run: Option<Run> = None;
        for made in self.made..most {
            let Ok(report) = index.step(self.seat) else {
                break;
            };
            let step = made + 1;
            let first = match run {
                Some(run) if run.report == report => run.first,
                Some(run) => {
                    self.tell(rt, run)?;
                    step
                }
                None => step,
            };
            run = Some(Run {
                first,
                last: step,
                report,
            });
            self.made = step;
            if report.ends() {
                break;
            }
        }
        match run {
            Some(run) => self.tell(rt, run),
            None => Ok(()),
        }
    }
}

/// Prints how a call was answered.
fn tell_call(rt: &HostRuntime, what: &str, answer: Result<Report, Refusal>) -> io::Result<()> {
    match answer {
        Ok(report) => {
            let said = Said(report);
            println!(rt; "{what}: {said}")
        }
        Err(refusal) => {
            let number = refusal.number();
            println!(rt; "{what}: refused with {number}")
        }
    }
}

fn main(rt: HostRuntime) -> io::Result<()> {
    let mut words = [0u64; 64];
    let mut index = Index::new(WordMemory::new(&mut words), NumberOrder);
    tell_call(&rt, "format with fan 3", index.format(3))?;
    let mut camera = Task::new("camera", 0);
    let mut stop = Task::new("  stop", 1);
    tell_call(
        &rt,
        "camera begins to put parcel 7 for stop 3",
        index.begin_put(0, 7, 3),
    )?;
    camera.walk(&rt, &mut index, 45)?;
    println!(rt; "the control cycle cuts the camera in the middle of its fill")?;
    tell_call(&rt, "stop begins to find parcel 7", index.begin_find(1, 7))?;
    stop.walk(&rt, &mut index, 33)?;
    println!(rt; "the control cycle goes back to the camera")?;
    camera.walk(&rt, &mut index, 145)?;
    println!(rt; "and to the stop")?;
    stop.walk(&rt, &mut index, 133)
}
