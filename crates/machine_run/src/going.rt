// The steps of a patch that is read: one inner step after the other, until they end.
ghost use Rattle.std.specs.Prelude.{◌≡◌};
ghost use Rattle.machine_step.specs.Held.{held, code_in};
ghost use Rattle.bridge.specs.Run.{ran, run_of, run_counts_of};
ghost use Rattle.machine_run.specs.Ready.{ReadyToRun, ReadyToCount, CanRaise, ended_by, made_by, counted_by};

use answers::run::Answer;
use kind_table::row;
use machine_numbers::numbers::{DONE, HALTED, NUMBERS, Numbers};
use machine_step::columns::Columns;
use machine_step::step::step;

// What the steps leave beside the stacks and the slices.
#[derive(Clone, Copy)]
pub struct Ended {
    pub answer: Answer,
    pub steps: u32,
    pub numbers: Numbers,
}

// What a step answers that does not go on: it halted, or is refused with a number and a lane.
fn answer_of(a: u32) -> Answer
    ensures { result ≡ ended_by a }
{
    if a == HALTED {
        return Answer::Finished;
    }
    Answer::Refused(a % NUMBERS, a / NUMBERS)
}

// How many steps it made, a number since the budget falls by it: one where it went on or halted, none where it is refused.
fn made_by(a: u32) -> u32
    ensures { result ≡ made_by a }
{
    if a == DONE {
        return 1;
    }
    if a == HALTED {
        return 1;
    }
    0
}

// The count of the op at this place, one more where a step of it that answers so was made.
fn raise_made(tally: &mut [u64], at: usize, a: u32)
    requires { CanRaise tally.old at }
    ensures { tally.new ≡ counted_by a at tally.old }
{
    if made_by(a) == 1 {
        tally[at] += 1;
    }
}

// Steps until the machine is finished, the budget is spent or a step is refused. Each step made raises the count of its op. A comment is passed, also when the budget is spent, and is no step.
pub fn go(
    numbers: Numbers,
    code: &Columns,
    calls: &mut [u16; Numbers::CALLS],
    refs: &mut [u32; Numbers::REFS],
    register: &mut [u64],
    tape: &mut [u64],
    table: &mut [u16],
    channel: &mut [u64],
    input: &[u64],
    output: &mut [u64],
    tally: &mut [u64],
    budget: u32,
) -> Ended
    requires ready { ReadyToRun code.now.bytes.now input.now (code_in code.now) (held numbers calls.old refs.old register.old tape.old table.old channel.old output.old) }
    requires count { ReadyToCount code.now.rows.now tally.old budget }
    ensures run { ran result.answer result.steps (held result.numbers calls.new refs.new register.new tape.new table.new channel.new output.new) ≡ run_of budget 0 (code_in code.now) input.now (held numbers calls.old refs.old register.old tape.old table.old channel.old output.old) }
    ensures counts { tally.new ≡ run_counts_of budget (code_in code.now) input.now (held numbers calls.old refs.old register.old tape.old table.old channel.old output.old) tally.old }
{
    // its own copy of the columns' places, so that the loop has them at hand
    let columns = *code;
    let mut h = numbers;
    if h.halted {
        return Ended {
            answer: Answer::Finished,
            steps: 0,
            numbers: h,
        };
    }
    let mut left = budget;
    // no range: an op may jump
    loop {
        if columns.rows.len() <= h.position {
            return Ended {
                answer: Answer::Finished,
                steps: budget - left,
                numbers: h,
            };
        }
        if columns.rows[h.position] == row::COMMENT {
            h.position += 1;
        } else {
            if left == 0 {
                return Ended {
                    answer: Answer::Spent,
                    steps: budget - left,
                    numbers: h,
                };
            }
            let at = h.position;
            let a = step(
                &mut h, &columns, calls, refs, register, tape, table, channel, input, output,
            );
            raise_made(tally, at, a);
            left -= made_by(a);
            if a != DONE {
                h.halted = a == HALTED;
                return Ended {
                    answer: answer_of(a),
                    steps: budget - left,
                    numbers: h,
                };
            }
        }
    }
}
