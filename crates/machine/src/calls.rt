// A run and a step. Each reads the patch first, then tests the state, then works.
ghost use Rattle.std.specs.Prelude.{◌≡◌, length, take};
ghost use Rattle.ops.specs.Patch.{patch_of};
ghost use Rattle.partners.specs.Read.{patch_read};
ghost use Rattle.busy.specs.Sums.{adds_up};
ghost use Rattle.machine_step.specs.Held.{code_in};
ghost use Rattle.machine.specs.Calls.{Slices, slices, lent, ended, step_call, stepped_to, run_call, ran_to};
ghost use Rattle.machine_run.specs.Ready.{IsLoaded, IsRead};

use crate::machine::{Machine, Ran, Stepped};
use answers::run::Answer;
use busy::sums::{adds_up, allowed_steps, total_after};
use machine_run::going::go;
use machine_step::columns::Columns;
use partners::patch::Patch;
use partners::scan::{NOWHERE, find_partners};
use patch_reader::reader::{Read, load};
use states::formed::is_formed;

// What is lent is lent slice by slice, as the call to link has it (`feltcairn_run_fresh`): of a struct of slices that are written each contract
// would have to say that its references stay the same.
impl Machine {
    // A call that ends before its first step.
    pub(crate) fn refused(self, answer: Answer) -> Ran
        ensures { (l : Slices) → ran_to result l ≡ ended answer 0 (lent self l) }
    {
        Ran {
            answer,
            steps: 0,
            machine: self,
        }
    }

    // The run of a patch that is read, by its columns, where `stand` says whether the counts add up: the test of the state, then the steps.
    pub(crate) fn run_read(
        mut self,
        code: &Columns,
        register: &mut [u64],
        tape: &mut [u64],
        table: &mut [u16],
        channel: &mut [u64],
        input: &[u64],
        output: &mut [u64],
        tally: &mut [u64],
        stand: bool,
        budget: u32,
    ) -> Ran
        requires read { IsRead code.now.bytes.now (code_in code.now) }
        requires sums { stand ≡ adds_up code.now.rows.now tally.old self.total }
        ensures { ran_to result (slices register.new tape.new table.new channel.new output.new tally.new) ≡ run_call code.now.bytes.now input.now budget (lent self (slices register.old tape.old table.old channel.old output.old tally.old)) }
    {
        let inputs = input.len();
        if !is_formed(
            self.numbers,
            &self.calls,
            &self.refs,
            code.rows,
            register,
            tape,
            table,
            channel,
            output,
            inputs,
        ) {
            return self.refused(Answer::NotAState);
        }
        if !stand {
            return self.refused(Answer::NotAState);
        }
        let ended = go(
            self.numbers,
            code,
            &mut self.calls,
            &mut self.refs,
            register,
            tape,
            table,
            channel,
            input,
            output,
            tally,
            allowed_steps(budget, self.total),
        );
        self.numbers = ended.numbers;
        self.total = total_after(self.total, ended.steps);
        Ran {
            answer: ended.answer,
            steps: ended.steps,
            machine: self,
        }
    }

    // The run of a patch whose ops are loaded: their partners are found first.
    pub(crate) fn run_loaded(
        self,
        read: &Read,
        n: usize,
        bytes: &[u8],
        register: &mut [u64],
        tape: &mut [u64],
        table: &mut [u16],
        channel: &mut [u64],
        input: &[u64],
        output: &mut [u64],
        tally: &mut [u64],
        stand: bool,
        budget: u32,
    ) -> Ran
        requires ops { n ≡ length (patch_of bytes.now).items }
        requires loaded { IsLoaded bytes.now (take n read.now.rows) (take n read.now.counts) (take n read.now.needs) (take n read.now.payloads) }
        requires sums { stand ≡ adds_up (take n read.now.rows) tally.old self.total }
        ensures { ran_to result (slices register.new tape.new table.new channel.new output.new tally.new) ≡ run_call bytes.now input.now budget (lent self (slices register.old tape.old table.old channel.old output.old tally.old)) }
    {
        let rows = &read.rows[..n];
        let mut partners = [NOWHERE; Machine::OPS];
        let mut turns = [NOWHERE; Machine::OPS];
        let mut marks = [NOWHERE; Machine::MARKS];
        let first = find_partners(rows, &mut partners, &mut turns, &mut marks);
        let code = Columns {
            rows,
            counts: &read.counts[..n],
            needs: &read.needs[..n],
            payloads: &read.payloads[..n],
            partners: &partners[..n],
            turns: &turns[..n],
            marks: &marks[first..],
            bytes,
        };
        self.run_read(
            &code, register, tape, table, channel, input, output, tally, stand, budget,
        )
    }

    // Steps until the machine is finished, a step is refused, or so many are made.
    pub fn run(
        mut self,
        bytes: &[u8],
        register: &mut [u64],
        tape: &mut [u64],
        table: &mut [u16],
        channel: &mut [u64],
        input: &[u64],
        output: &mut [u64],
        tally: &mut [u64],
        budget: u32,
    ) -> Ran
        ensures { ran_to result (slices register.new tape.new table.new channel.new output.new tally.new) ≡ run_call bytes.now input.now budget (lent self (slices register.old tape.old table.old channel.old output.old tally.old)) }
    {
        let mut read = Read::blank();
        let n = match load(bytes, &mut read) {
            Ok(n) => n,
            Err(unread) => return self.refused(Answer::BadFile(unread.number, unread.place)),
        };
        let stand = adds_up(&read.rows[..n], tally, self.total);
        self.run_loaded(
            &read, n, bytes, register, tape, table, channel, input, output, tally, stand, budget,
        )
    }

    // The same of a patch that was handed on, as it is read of these bytes, without reading it again.
    pub fn run_patch(
        self,
        patch: Patch,
        bytes: &[u8],
        register: &mut [u64],
        tape: &mut [u64],
        table: &mut [u16],
        channel: &mut [u64],
        input: &[u64],
        output: &mut [u64],
        tally: &mut [u64],
        budget: u32,
    ) -> Ran
        requires { patch ≡ patch_read bytes.now }
        ensures { ran_to result (slices register.new tape.new table.new channel.new output.new tally.new) ≡ run_call bytes.now input.now budget (lent self (slices register.old tape.old table.old channel.old output.old tally.old)) }
    {
        // a patch has the number of its file as a field (`patch_read`), a bad one too
        let number = patch.number;
        if number != 0 {
            return self.refused(Answer::BadFile(number, patch.place));
        }
        let n = patch.ops;
        let code = Columns {
            rows: &patch.rows[..n],
            counts: &patch.counts[..n],
            needs: &patch.needs[..n],
            payloads: &patch.payloads[..n],
            partners: &patch.partners[..n],
            turns: &patch.turns[..n],
            marks: &patch.marks[patch.first..],
            bytes,
        };
        let stand = adds_up(code.rows, tally, self.total);
        self.run_read(
            &code, register, tape, table, channel, input, output, tally, stand, budget,
        )
    }

    // One step: a run of at most one. Where none was made its answer says why.
    pub fn step(
        mut self,
        bytes: &[u8],
        register: &mut [u64],
        tape: &mut [u64],
        table: &mut [u16],
        channel: &mut [u64],
        input: &[u64],
        output: &mut [u64],
        tally: &mut [u64],
    ) -> Stepped
        ensures { stepped_to result (slices register.new tape.new table.new channel.new output.new tally.new) ≡ step_call bytes.now input.now (lent self (slices register.old tape.old table.old channel.old output.old tally.old)) }
    {
        let ran = self.run(
            bytes, register, tape, table, channel, input, output, tally, 1,
        );
        let answer = if ran.steps == 0 {
            ran.answer
        } else {
            Answer::Went
        };
        self = ran.machine;
        Stepped {
            answer,
            machine: self,
        }
    }
}
