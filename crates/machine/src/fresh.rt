// The fresh run: it reads the patch first, then tests the call mode, the lent room and that there is a count for each op, then writes its zeros and works
// as any run.
ghost use Rattle.std.specs.Prelude.{◌≡◌};
ghost use Rattle.machine.specs.Calls.{slices, ran_to, fresh_call};

use crate::machine::{Machine, Ran};
use answers::run::Answer;
use patch_reader::reader::{Read, load};
use states::formed::can_start;
use states::zeros::zero;

impl Machine {
    // Zeros to the register's lanes, to the tape and to the counts, and then a run from the fresh machine, which keeps the call mode.
    pub fn run_fresh(
        bytes: &[u8],
        register: &mut [u64],
        tape: &mut [u64],
        table: &mut [u16],
        channel: &mut [u64],
        input: &[u64],
        output: &mut [u64],
        tally: &mut [u64],
        budget: u32,
        mode: u32,
    ) -> Ran
        ensures { ran_to result (slices register.new tape.new table.new channel.new output.new tally.new) ≡ fresh_call bytes.now input.now budget mode (slices register.old tape.old table.old channel.old output.old tally.old) }
    {
        let m = Machine::fresh(mode);
        let mut read = Read::blank();
        let n = match load(bytes, &mut read) {
            Ok(n) => n,
            Err(unread) => return m.refused(Answer::BadFile(unread.number, unread.place)),
        };
        if !can_start(mode, register, table, channel) {
            return m.refused(Answer::NotAState);
        }
        if tally.len() != n {
            return m.refused(Answer::NotAState);
        }
        let cells = tape.len();
        zero(register, Machine::LANES);
        zero(tape, cells);
        zero(tally, n);
        m.run_loaded(
            &read, n, bytes, register, tape, table, channel, input, output, tally, true, budget,
        )
    }
}
