//! The index and its calls.
//!
//! Each public call says what the step rules say of it (`rule`), that a refusal leaves all as it was (`refused`), that
//! what lies outside the memory's row stays (`outside`), where it leads every run that led here (`reached`), and that
//! every such run stays lawful (`lawful`).
// `refused` and `outside` stay in each contract: they compare the two ends of a call, which no invariant of one value can.
ghost use Rattle.std.specs.Prelude.{◌≡◌, OnErr};
ghost use Rattle.rules.specs.Calls.{format as format_rule, begin as begin_rule, step as step_rule, abandon as abandon_rule};
ghost use Rattle.rules.specs.Histories.{BeginFind, BeginPut, Step, Abandon};
ghost use Rattle.rules.specs.declared.seat.Operation.TheVariants.{Find, Put};
ghost use Rattle.index.specs.Runs.{Starts, LeadsOn, StaysLawful};
ghost use Rattle.index.specs.Views.{view, placed, Fresh};

use super::access::{clear, due, perform};
use super::fan::Fan;
use super::seat::{abandon_report, go_on, idle, start_out, value_of};
use memory::Memory;
use order::Order;
use rules::{Operation, Phase, Refusal, Report, Seat};

/// An index over a memory, in an order.
#[derive(Drop)]
pub struct Index<M: Memory, O: Order> {
    memory: M,
    order: O,
    /// None until the index is formatted.
    fan: Option<Fan>,
    /// How many nodes are in use.
    count: u64,
    seats: [Seat; 8],
}

/// Where a seat stands in the table.
fn place(seat: u64) -> Result<usize, Refusal>
    ensures { result ≡ placed seat }
{
    if seat < 8 {
        Ok(seat as usize)
    } else {
        Err(Refusal::NoSeat)
    }
}

#[tactic(auto, using(crate::proofs::Staying::refusal_keeps, crate::proofs::Staying::leads_on, crate::proofs::Staying::stays_lawful))]
impl<M: Memory, O: Order> Index<M, O> {
    /// An index that is yet to be formatted.
    pub fn new(memory: M, order: O) -> Index<M, O>
        ensures parts { (result.memory ≡ memory) × (result.order ≡ order) }
        ensures fresh { Fresh (view M.Memory O.Order result) }
    {
        Index {
            memory,
            order,
            fan: None,
            count: 0,
            seats: [idle(); 8],
        }
    }

    /// Makes an empty index of the memory, with at most `fan` entries to a node.
    pub fn format(&mut self, fan: u64) -> Result<Report, Refusal>
        ensures rule { (result, view M.Memory O.Order self.new) ≡ format_rule (view M.Memory O.Order self.old) fan }
        ensures refused { OnErr result (view M.Memory O.Order self.new ≡ view M.Memory O.Order self.old) }
        ensures outside { M.outside self.new.memory ≡ M.outside self.old.memory }
        ensures reached { Starts result (view M.Memory O.Order self.new) }
    {
        self.start(fan)
    }

    /// The format itself: all that it does is in the rules.
    fn start(&mut self, fan: u64) -> Result<Report, Refusal>
        ensures rule { (result, view M.Memory O.Order self.new) ≡ format_rule (view M.Memory O.Order self.old) fan }
        ensures outside { M.outside self.new.memory ≡ M.outside self.old.memory }
    {
        if self.fan.is_some() {
            return Err(Refusal::Formatted);
        }
        let fan = Fan::try_from(fan)?;
        if self.memory.length() < 32 {
            return Err(Refusal::TooSmall);
        }
        clear(&mut self.memory);
        self.fan = Some(fan);
        self.count = 1;
        self.seats = [idle(); 8];
        Ok(Report::GoneOn(0))
    }

    /// Has an idle seat find a key.
    pub fn begin_find(&mut self, seat: u64, key: u64) -> Result<Report, Refusal>
        ensures rule { (result, view M.Memory O.Order self.new) ≡ begin_rule (view M.Memory O.Order self.old) seat key Find }
        ensures refused { OnErr result (view M.Memory O.Order self.new ≡ view M.Memory O.Order self.old) }
        ensures outside { M.outside self.new.memory ≡ M.outside self.old.memory }
        ensures reached { LeadsOn (BeginFind seat key) result (view M.Memory O.Order self.old) (view M.Memory O.Order self.new) }
        ensures lawful { StaysLawful (BeginFind seat key) result (view M.Memory O.Order self.old) }
    {
        self.begin(seat, key, Operation::Find)
    }

    /// Has an idle seat put a value at a key.
    pub fn begin_put(&mut self, seat: u64, key: u64, value: u64) -> Result<Report, Refusal>
        ensures rule { (result, view M.Memory O.Order self.new) ≡ begin_rule (view M.Memory O.Order self.old) seat key (Put value) }
        ensures refused { OnErr result (view M.Memory O.Order self.new ≡ view M.Memory O.Order self.old) }
        ensures outside { M.outside self.new.memory ≡ M.outside self.old.memory }
        ensures reached { LeadsOn (BeginPut seat key value) result (view M.Memory O.Order self.old) (view M.Memory O.Order self.new) }
        ensures lawful { StaysLawful (BeginPut seat key value) result (view M.Memory O.Order self.old) }
    {
        self.begin(seat, key, Operation::Put { value })
    }

    /// Has an idle seat start out on an operation.
    fn begin(&mut self, seat: u64, key: u64, operation: Operation) -> Result<Report, Refusal>
        ensures rule { (result, view M.Memory O.Order self.new) ≡ begin_rule (view M.Memory O.Order self.old) seat key operation }
        ensures outside { M.outside self.new.memory ≡ M.outside self.old.memory }
    {
        self.fan.ok_or(Refusal::Unformatted)?;
        let lent = &mut self.seats[place(seat)?];
        let Phase::Idle = lent.phase else {
            return Err(Refusal::Busy);
        };
        let top = self.memory.top_word();
        if key > top || value_of(operation) > top {
            return Err(Refusal::TooWide);
        }
        if !self.order.is_key(key) {
            return Err(Refusal::NoKey);
        }
        start_out(lent, key, operation);
        Ok(Report::GoneOn(0))
    }

    /// Makes the next step of a seat, with at most one access to the memory.
    pub fn step(&mut self, seat: u64) -> Result<Report, Refusal>
        ensures rule { (result, view M.Memory O.Order self.new) ≡ step_rule (view M.Memory O.Order self.old) seat }
        ensures refused { OnErr result (view M.Memory O.Order self.new ≡ view M.Memory O.Order self.old) }
        ensures outside { M.outside self.new.memory ≡ M.outside self.old.memory }
        ensures reached { LeadsOn (Step seat) result (view M.Memory O.Order self.old) (view M.Memory O.Order self.new) }
        ensures lawful { StaysLawful (Step seat) result (view M.Memory O.Order self.old) }
    {
        self.advance(seat)
    }

    /// The step itself: the one access, and how the seat goes on from its word.
    fn advance(&mut self, seat: u64) -> Result<Report, Refusal>
        ensures rule { (result, view M.Memory O.Order self.new) ≡ step_rule (view M.Memory O.Order self.old) seat }
        ensures outside { M.outside self.new.memory ≡ M.outside self.old.memory }
    {
        let Some(fan) = self.fan else {
            return Err(Refusal::Unformatted);
        };
        let at = place(seat)?;
        let access = due(&self.seats[at], &self.memory, fan.entries)?;
        let word = perform(&mut self.memory, access)?;
        let lent = &mut self.seats[at];
        Ok(go_on(
            lent,
            word,
            &self.memory,
            &self.order,
            fan.entries,
            &mut self.count,
        ))
    }

    /// Frees a seat that holds no latch.
    pub fn abandon(&mut self, seat: u64) -> Result<Report, Refusal>
        ensures rule { (result, view M.Memory O.Order self.new) ≡ abandon_rule (view M.Memory O.Order self.old) seat }
        ensures refused { OnErr result (view M.Memory O.Order self.new ≡ view M.Memory O.Order self.old) }
        ensures outside { M.outside self.new.memory ≡ M.outside self.old.memory }
        ensures reached { LeadsOn (Abandon seat) result (view M.Memory O.Order self.old) (view M.Memory O.Order self.new) }
        ensures lawful { StaysLawful (Abandon seat) result (view M.Memory O.Order self.old) }
    {
        self.free(seat)
    }

    /// The abandoning itself: only the seat's phase changes.
    fn free(&mut self, seat: u64) -> Result<Report, Refusal>
        ensures rule { (result, view M.Memory O.Order self.new) ≡ abandon_rule (view M.Memory O.Order self.old) seat }
        ensures outside { M.outside self.new.memory ≡ M.outside self.old.memory }
    {
        self.fan.ok_or(Refusal::Unformatted)?;
        let lent = &mut self.seats[place(seat)?];
        let report = abandon_report(lent)?;
        lent.phase = Phase::Idle;
        Ok(report)
    }
}

impl<M: Memory, O: Order + Drop> Index<M, O> {
    /// Hands the memory back.
    pub fn into_memory(self) -> M
        ensures { result ≡ self.memory }
    {
        let Index {
            memory,
            order: _,
            fan: _,
            count: _,
            seats: _,
        } = self;
        memory
    }
}
