//! How a seat goes on from the word that its access gave.
// These stay functions: `Seat` is declared in `rules`, below `node`, whose course and draft two of them use, and a step is read in one place.
ghost use Rattle.std.specs.Prelude.{◌≡◌, ◌+◌, ◌<◌, if◌then◌else◌, nat_eq, slice_set};
ghost use Rattle.rules.specs.Calls.{abandon_answer, value_of as value_rule};
ghost use Rattle.rules.specs.Nodes.{level};
ghost use Rattle.rules.specs.Seats.{idle as idle_seat, in_phase, starting_out, with_word, with_draft};
ghost use Rattle.rules.specs.Steps.{advance, version_in, draft_of, splits, takes, releases, copy_next, part_next, fill_next, stopped as stopped_rule};
ghost use Rattle.rules.specs.declared.report.Outcome.TheVariants.{Full, Worn};
ghost use Rattle.rules.specs.declared.report.Report.TheVariants.{GoneOn, TurnedBack, Published, Posted, Unchanged, Ended};
ghost use Rattle.rules.specs.declared.seat.Part.TheVariants.{Own};
ghost use Rattle.rules.specs.declared.seat.Phase.TheVariants.{Idle, Look, Copy, Take, Fill, End};
ghost use Rattle.index.specs.Extents.{extent_over};
ghost use Rattle.node.specs.Courses.{followed};
ghost use Rattle.node.specs.Drafts.{freed_by};

use super::access::{extent, freeing};
use memory::Memory;
use node::{Course, course_of, draft_update};
use order::Order;
use rules::{Draft, Entry, Extent, Operation, Outcome, Part, Phase, Refusal, Report, Seat};

/// A seat at rest.
// stays written out: of a derived default the check does not find that its arrays are the rules' zeros
pub fn idle() -> Seat
    ensures { result ≡ idle_seat }
{
    Seat {
        operation: Operation::Find,
        phase: Phase::Idle,
        node: 0,
        aim: 0,
        key: 0,
        copy: [0; 32],
        draft: Draft {
            freeing: 0,
            level: 0,
            outcome: Outcome::Stored,
            left: 0,
            right: 0,
            edge: 0,
            left_len: 0,
            len: 0,
            entries: [Entry::default(); 14],
        },
    }
}

/// What an abandoned seat reports, unless it is idle or holds a latch.
pub fn abandon_report(seat: &Seat) -> Result<Report, Refusal>
    ensures { result ≡ abandon_answer seat.now.phase seat.now.operation }
{
    match (seat.phase, seat.operation) {
        (Phase::Idle, _) => Err(Refusal::Idle),
        (Phase::Take | Phase::Fill { .. } | Phase::Release | Phase::Undo, _) => Err(
            Refusal::Holding,
        ),
        (Phase::End(Outcome::Full | Outcome::Worn), _) => Ok(Report::Abandoned {
            published: false,
        }),
        (Phase::End(_), _) => Ok(Report::Abandoned { published: true }),
        (_, Operation::Post { .. }) => Ok(Report::Abandoned { published: true }),
        (_, _) => Ok(Report::Abandoned { published: false }),
    }
}

/// The word that an operation carries beside its key.
// stays 0 for none: the width of any word is asked, and 0 passes
pub fn value_of(operation: Operation) -> u64
    ensures { result ≡ value_rule operation }
{
    match operation {
        Operation::Find => 0,
        Operation::Put { value } => value,
        Operation::Post { child, .. } => child,
    }
}

/// Starts out from the root, to the leaf for a key.
pub fn start_out(seat: &mut Seat, key: u64, operation: Operation)
    ensures { seat.new ≡ starting_out seat.old key operation }
{
    seat.operation = operation;
    seat.phase = Phase::Look;
    seat.node = 0;
    seat.aim = 0;
    seat.key = key;
}

/// After the look: the lock word without its latch bit is the version of the copy to come.
pub fn look(seat: &mut Seat, word: u64) -> Report
    ensures after { seat.new ≡ with_word seat.old 0 (version_in word) (Copy 1) }
    ensures report { result ≡ GoneOn seat.old.node }
{
    seat.copy[0] = word - word % 2;
    seat.phase = Phase::Copy { next: 1 };
    Report::GoneOn(seat.node)
}

/// Keeps a word of a copy; one past its end is let go.
fn keep(copy: &mut [u64; 32], at: u8, word: u64)
    ensures { copy.new ≡ slice_set copy.old at word }
{
    if at < 32 {
        copy[usize::from(at)] = word;
    }
}

/// After the copy of a word: on to the next one, or to the check after the last.
pub fn copy(seat: &mut Seat, at: u8, word: u64) -> Report
    ensures after { seat.new ≡ with_word seat.old at word (copy_next at) }
    ensures report { result ≡ GoneOn seat.old.node }
{
    // stays two stores: with one, by `keep`, the copy of a word costs 1.29 times the plain twin's, and the bar is 1.2
    if at < 31 {
        seat.copy[usize::from(at)] = word;
        seat.phase = Phase::Copy { next: at + 1 };
    } else {
        keep(&mut seat.copy, at, word);
        seat.phase = Phase::Check;
    }
    Report::GoneOn(seat.node)
}

/// Back to the look, since the node changed or is latched.
pub fn turn_back(seat: &mut Seat) -> Report
    ensures after { seat.new ≡ in_phase seat.old Look }
    ensures report { result ≡ TurnedBack seat.old.node }
{
    seat.phase = Phase::Look;
    Report::TurnedBack(seat.node)
}

/// After a check that accepts the copy.
pub fn follow(seat: &mut Seat, course: Course) -> Report
    ensures { (seat.new, result) ≡ followed seat.old course }
{
    let node = seat.node;
    match course {
        Course::To(next) => {
            seat.node = next;
            seat.phase = Phase::Look;
            Report::GoneOn(node)
        }
        Course::Latch => {
            seat.phase = Phase::Latch;
            Report::GoneOn(node)
        }
        Course::Answer(found) => {
            seat.phase = Phase::Idle;
            match found {
                Some(value) => Report::Found { node, value },
                None => Report::Absent(node),
            }
        }
    }
}

/// How a put ends that is stopped.
fn stopped(operation: Operation, outcome: Outcome) -> Outcome
    ensures { result ≡ stopped_rule operation outcome }
{
    match operation {
        Operation::Find | Operation::Put { .. } => outcome,
        Operation::Post { .. } => Outcome::Untold,
    }
}

/// To the end of a put whose node can be written no more.
pub fn wear_out(seat: &mut Seat) -> Report
    ensures after { seat.new ≡ in_phase seat.old (End (stopped_rule seat.old.operation Worn)) }
    ensures report { result ≡ GoneOn seat.old.node }
{
    seat.phase = Phase::End(stopped(seat.operation, Outcome::Worn));
    Report::GoneOn(seat.node)
}

/// Drafts the update of the node whose latch the seat has won; `freeing` is the lock word that will free it.
pub fn hold<O: Order>(seat: &mut Seat, order: &O, fan: u8, freeing: u64)
    ensures { seat.new ≡ with_draft seat.old (freed_by freeing (draft_of (O.before order.now) fan seat.old)) (if splits fan (draft_of (O.before order.now) fan seat.old) then Take else Fill Own 1) }
{
    draft_update(seat, order, fan, freeing);
    seat.phase = if fan < seat.draft.len {
        Phase::Take
    } else {
        Phase::Fill {
            part: Part::Own,
            next: 1,
        }
    };
}

/// Takes the nodes of a split, if there are enough and the root may rise.
pub fn take(seat: &mut Seat, extent: Extent, count: &mut u64)
    ensures { (seat.new, count.new, GoneOn seat.old.node) ≡ takes extent seat.old count.old }
{
    let first = *count;
    let is_root = seat.node == 0;
    let needed = if is_root { 2 } else { 1 };
    let has_room = needed <= extent.nodes.saturating_sub(first);
    if !has_room || (is_root && seat.draft.level >= extent.top) {
        seat.phase = Phase::Undo;
        return;
    }
    *count = first + needed;
    if is_root {
        seat.draft.level += 1;
        seat.draft.left = first;
        seat.draft.right = first + 1;
        seat.phase = Phase::Fill {
            part: Part::Left,
            next: 0,
        };
    } else {
        seat.draft.left = seat.node;
        seat.draft.right = first;
        seat.phase = Phase::Fill {
            part: Part::Right,
            next: 0,
        };
    }
}

/// What follows the last word of a part: the taken nodes come first, and the latched one keeps its lock word.
fn after_part(part: Part) -> Phase
    ensures { result ≡ part_next part }
{
    match part {
        Part::Left => Phase::Fill {
            part: Part::Right,
            next: 0,
        },
        Part::Right => Phase::Fill {
            part: Part::Own,
            next: 1,
        },
        Part::Own => Phase::Release,
    }
}

/// After the fill of a word: on to the next one, or to what follows the part.
pub fn fill(seat: &mut Seat, part: Part, at: u8) -> Report
    ensures after { seat.new ≡ in_phase seat.old (fill_next part at) }
    ensures report { result ≡ GoneOn seat.old.node }
{
    seat.phase = if at < 31 {
        Phase::Fill { part, next: at + 1 }
    } else {
        after_part(part)
    };
    Report::GoneOn(seat.node)
}

/// What a release reports.
pub fn written(seat: &Seat) -> Report
    ensures { result ≡ (if nat_eq (level seat.now.copy) 0 then Published seat.now.node else Posted seat.now.node) }
{
    if seat.copy[1] == 0 {
        Report::Published(seat.node)
    } else {
        Report::Posted(seat.node)
    }
}

/// After the release: a split of a node other than the root is posted one level higher, else the put ends.
pub fn release(seat: &mut Seat, extent: Extent)
    ensures { seat.new ≡ (releases extent seat.old).0 }
{
    if seat.node == 0 || seat.draft.len <= extent.fan {
        seat.phase = Phase::End(seat.draft.outcome);
        return;
    }
    match seat.aim.checked_add(1) {
        Some(aim) => {
            seat.operation = Operation::Post {
                edge: seat.draft.edge,
                child: seat.draft.right,
            };
            seat.phase = Phase::Look;
            seat.node = 0;
            seat.aim = aim;
            seat.key = seat.draft.edge;
        }
        None => seat.phase = Phase::End(Outcome::Untold),
    }
}

/// After the undo, to the end of a put that found too few nodes.
pub fn undo(seat: &mut Seat) -> Report
    ensures after { seat.new ≡ in_phase seat.old (End (stopped_rule seat.old.operation Full)) }
    ensures report { result ≡ Unchanged seat.old.node }
{
    seat.phase = Phase::End(stopped(seat.operation, Outcome::Full));
    Report::Unchanged(seat.node)
}

/// The end of a put.
pub fn end(seat: &mut Seat, outcome: Outcome) -> Report
    ensures after { seat.new ≡ in_phase seat.old Idle }
    ensures report { result ≡ Ended seat.old.node outcome }
{
    seat.phase = Phase::Idle;
    Report::Ended {
        node: seat.node,
        outcome,
    }
}

/// Goes on from the word that the access of the seat's phase gave.
// stays one match on phase and word: the phase is data that a seat keeps, and a table of closures would hide what a step can be
// stays with six parameters: the seat and the count are lent out of the index beside the memory and the order
pub fn go_on<M: Memory, O: Order>(
    lent: &mut Seat,
    word: u64,
    memory: &M,
    order: &O,
    fan: u8,
    count: &mut u64,
) -> Report
    ensures { (lent.new, count.new, result) ≡ advance (O.before order.now) (extent_over fan (M.cells memory.now) (M.top memory.now)) lent.old count.old word }
{
    let node = lent.node;
    match (lent.phase, word) {
        (Phase::Idle, _) => Report::GoneOn(node),
        (Phase::Look, word) => look(lent, word),
        (Phase::Copy { next }, word) => copy(lent, next, word),
        (Phase::Check, word) if word != lent.copy[0] => turn_back(lent),
        (Phase::Check, _) => follow(lent, course_of(lent, order)),
        (Phase::Latch, word) => match freeing(lent, memory.top_word()) {
            None => wear_out(lent),
            Some(_) if word != lent.copy[0] => turn_back(lent),
            Some(freeing) => {
                hold(lent, order, fan, freeing);
                Report::Latched(node)
            }
        },
        (Phase::Take, _) => {
            take(lent, extent(memory, fan), count);
            Report::GoneOn(node)
        }
        (Phase::Fill { part, next }, _) => fill(lent, part, next),
        (Phase::Release, _) => {
            let report = written(lent);
            release(lent, extent(memory, fan));
            report
        }
        (Phase::Undo, _) => undo(lent),
        (Phase::End(outcome), _) => end(lent, outcome),
    }
}
