// A case that is a run, from a state or fresh, or a step.
use crate::list::{CELLS, COUNTS, Damaged, ENTRIES, INPUTS, LANES, OUTPUTS, PLACES, Reader};
use crate::slices::{Contents, Six, Slice};
use crate::state::{machine, same_machine};
use crate::tell::Tell;
use answers::run::Answer;
use machine::machine::{Machine, Ran, Stepped};

// What is asked of a machine.
#[derive(Clone, Copy)]
pub enum Way {
    Run,
    Fresh,
    Step,
}

// The same with what the case hands in: the machine, and to a fresh run its call mode.
#[derive(Drop)]
enum Start {
    Run(Machine),
    Fresh(u32),
    Step(Machine),
}

impl Start {
    fn read(reader: &mut Reader<'_>, way: Way) -> Result<Start, Damaged> {
        match way {
            Way::Run => Ok(Start::Run(machine(reader)?)),
            Way::Fresh => Ok(Start::Fresh(reader.number()?)),
            Way::Step => Ok(Start::Step(machine(reader)?)),
        }
    }
}

// What is given.
#[derive(Drop)]
struct Given<'a> {
    budget: u32,
    inputs: &'a [[u8; 8]],
    slices: Six<Slice<'a>>,
    start: Start,
}

impl<'a> Given<'a> {
    fn read(reader: &mut Reader<'a>, way: Way) -> Result<Given<'a>, Damaged> {
        Ok(Given {
            budget: reader.number()?,
            inputs: reader.counted()?,
            slices: Six::read(reader)?,
            start: Start::read(reader, way)?,
        })
    }
}

// What is expected: the answer, the machine and the contents of the six slices.
#[derive(Drop)]
struct Expected<'a> {
    number: usize,
    steps: usize,
    place: usize,
    lane: usize,
    machine: Machine,
    slices: Six<Contents<'a>>,
}

impl<'a> Expected<'a> {
    fn read(reader: &mut Reader<'a>) -> Result<Expected<'a>, Damaged> {
        Ok(Expected {
            number: reader.word()?,
            steps: reader.word()?,
            place: reader.word()?,
            lane: reader.word()?,
            machine: machine(reader)?,
            slices: Six::read(reader)?,
        })
    }

    fn same(&self, tell: Tell, r: &Ran) -> bool {
        let at = r.machine.numbers.position;
        tell.same(b"number", self.number, r.answer.number())
            && tell.same(b"steps", self.steps, r.steps as usize)
            && tell.same(b"place", self.place, r.answer.place(at))
            && tell.same(b"lane", self.lane, r.answer.lane())
            && same_machine(tell, &self.machine, &r.machine)
    }

    fn same_slices(&self, tell: Tell, lent: &Lent<'_>) -> bool {
        let slices = self.slices;
        slices.tape.same(tell, b"cell", lent.tape)
            && slices.register.same(tell, b"lane", lent.register)
            && same_table(tell, slices.table, lent.table)
            && slices.channel.same(tell, b"channel place", lent.channel)
            && slices.output.same(tell, b"output", lent.output)
            && slices.tally.same(tell, b"count of op", lent.tally)
    }
}

// The table of functions, with zeros after it to the end of its storage.
fn same_table(tell: Tell, expected: Contents<'_>, came: &[u16]) -> bool {
    let mut lanes = [0u64; ENTRIES];
    for (lane, entry) in lanes.iter_mut().zip(came) {
        *lane = u64::from(*entry);
    }
    expected.same(tell, b"table entry", &lanes)
}

// What a run is lent.
#[derive(Drop)]
struct Lent<'s> {
    register: &'s mut [u64],
    tape: &'s mut [u64],
    table: &'s mut [u16],
    channel: &'s mut [u64],
    input: &'s [u64],
    output: &'s mut [u64],
    tally: &'s mut [u64],
}

// A step's answer beside how many were made.
fn of_step(r: Stepped) -> Ran {
    let Stepped { answer, machine } = r;
    Ran {
        answer,
        steps: u32::from(answer == Answer::Went),
        machine,
    }
}

impl Lent<'_> {
    fn start(&mut self, file: &[u8], start: Start, budget: u32) -> Ran {
        match start {
            Start::Run(m) => m.run(
                file,
                self.register,
                self.tape,
                self.table,
                self.channel,
                self.input,
                self.output,
                self.tally,
                budget,
            ),
            Start::Fresh(mode) => Machine::run_fresh(
                file,
                self.register,
                self.tape,
                self.table,
                self.channel,
                self.input,
                self.output,
                self.tally,
                budget,
                mode,
            ),
            Start::Step(m) => of_step(m.step(
                file,
                self.register,
                self.tape,
                self.table,
                self.channel,
                self.input,
                self.output,
                self.tally,
            )),
        }
    }
}

// Lays its storage out, lends as much of it as the case says, runs, and compares. The storage comes first: what is made behind a question mark is zeroed
// once more when the function begins.
fn run(
    tell: Tell,
    file: &[u8],
    given: Given<'_>,
    expected: &Expected<'_>,
) -> Result<bool, Damaged> {
    let mut input = [0u64; INPUTS];
    let mut tape = [0u64; CELLS];
    let mut register = [0u64; LANES];
    let mut table = [0u16; ENTRIES];
    let mut channel = [0u64; PLACES];
    let mut output = [0u64; OUTPUTS];
    let mut tally = [0u64; COUNTS];
    let Given {
        budget,
        inputs,
        slices,
        start,
    } = given;
    for (value, bytes) in input.iter_mut().zip(inputs) {
        *value = u64::from_le_bytes(*bytes);
    }
    let mut lent = Lent {
        register: slices.register.lay(&mut register, |value| value)?,
        tape: slices.tape.lay(&mut tape, |value| value)?,
        table: slices
            .table
            .lay(&mut table, |value| (value % 65536) as u16)?,
        channel: slices.channel.lay(&mut channel, |value| value)?,
        input: input.get(..inputs.len()).ok_or(Damaged)?,
        output: slices.output.lay(&mut output, |value| value)?,
        tally: slices.tally.lay(&mut tally, |value| value)?,
    };
    let r = lent.start(file, start, budget);
    Ok(expected.same(tell, &r) && expected.same_slices(tell, &lent))
}

// Reads the case whole, and then runs it.
pub fn replay(tell: Tell, way: Way, file: &[u8], case: &[u8]) -> Result<bool, Damaged> {
    let mut reader = Reader::new(case);
    let given = Given::read(&mut reader, way)?;
    let expected = Expected::read(&mut reader)?;
    reader.end()?;
    run(tell, file, given, &expected)
}
