// Replays a list of cases: reads it on standard input, runs our code on each case, and prints the first ten that do not have the expected answer,
// how many cases there are and how many agree. docs/REPLAY.md says what a list is.
#![tactic(auto)]

mod list; // the bytes of a case
mod tell; // what is said of a difference
mod state; // a machine
mod slices; // the six slices of a run
mod run; // runs, fresh and from a state, and steps
mod shape; // joins and flattenings

use crate::list::{CASE, Damaged, PATCH, Reader};
use crate::run::Way;
use crate::tell::Tell;
use answers::numbered::Numbered;
use byte_fields::read::u32_at;
use streams::print::{end_line, number};

// A check: its number and its place are expected.
fn check(tell: Tell, file: &[u8], case: &[u8]) -> Result<bool, Damaged> {
    let mut reader = Reader::new(case);
    let number = reader.word()?;
    let place = reader.word()?;
    reader.end()?;
    let v = patch_check::check::check(file);
    Ok(tell.same(b"number", number, v.number()) && tell.same(b"place", place, v.place()))
}

// The sorts of a case.
#[derive(Clone, Copy)]
enum Sort {
    Run(Way),
    Join,
    Flatten,
    Check,
}

impl TryFrom<u8> for Sort {
    type Error = Damaged;

    fn try_from(sort: u8) -> Result<Sort, Damaged> {
        match sort {
            0 => Ok(Sort::Run(Way::Run)),
            1 => Ok(Sort::Run(Way::Fresh)),
            2 => Ok(Sort::Join),
            3 => Ok(Sort::Flatten),
            4 => Ok(Sort::Check),
            5 => Ok(Sort::Run(Way::Step)),
            _ => Err(Damaged),
        }
    }
}

// Whether a case agrees.
fn replay(tell: Tell, sort: Sort, file: &[u8], case: &[u8]) -> Result<bool, Damaged> {
    match sort {
        Sort::Run(way) => run::replay(tell, way, file, case),
        Sort::Join => shape::replay_join(tell, file, case),
        Sort::Flatten => shape::replay_flatten(tell, file, case),
        Sort::Check => check(tell, file, case),
    }
}

// Reads these bytes whole.
fn read(bytes: &mut [u8]) -> Result<(), Damaged> {
    if io::read_full(0, bytes) < bytes.len() {
        return Err(Damaged);
    }
    Ok(())
}

// Whether the next case agrees, if there is one: its length, its sort and the length of its patch come first, then the patch, and what is given
// and expected beside it.
fn next(
    tell: Tell,
    file: &mut [u8; PATCH],
    case: &mut [u8; CASE],
) -> Result<Option<bool>, Damaged> {
    let mut head = [0u8; 9];
    let k = io::read_full(0, &mut head);
    if k == 0 {
        return Ok(None);
    }
    if k < 9 {
        return Err(Damaged);
    }
    let size = u32_at(&head, 0);
    let bytes = u32_at(&head, 5);
    let after = size.checked_sub(bytes + 5).ok_or(Damaged)?;
    let file = file.get_mut(..bytes).ok_or(Damaged)?;
    let case = case.get_mut(..after).ok_or(Damaged)?;
    read(file)?;
    read(case)?;
    let agrees = replay(tell, Sort::try_from(head[4])?, file, case)?;
    Ok(Some(agrees))
}

// Says where a list is damaged.
fn show_damage(n: u32) {
    io::write_all(1, b"damaged");
    number(n as usize);
    io::write_all(
        1,
        b": this case is cut short, too long or not in the form of a list\n",
    );
}

fn show(cases: u32, agree: u32) {
    io::write_all(1, b"cases");
    number(cases as usize);
    end_line();
    io::write_all(1, b"agree");
    number(agree as usize);
    end_line();
}

// A proved loop has to end, and nothing says that the list does: so the cases are counted up to a number that no list reaches.
const CASES: u32 = 1000000000;

fn main() {
    let mut file = [0u8; PATCH];
    let mut case = [0u8; CASE];
    let mut agree: u32 = 0;
    for n in 0..CASES {
        let tell = Tell {
            case: n,
            loud: n - agree < 10,
        };
        match next(tell, &mut file, &mut case) {
            Ok(Some(agrees)) => agree += u32::from(agrees),
            Ok(None) => {
                show(n, agree);
                return;
            }
            Err(Damaged) => {
                show_damage(n);
                show(n, agree);
                return;
            }
        }
    }
    show(CASES, agree);
}
