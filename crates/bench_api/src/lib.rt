// The calls that the benchmark (bench/) makes through a static library: numbers and byte slices only. What they call is proved; they themselves
// promise nothing but that they are safe and end.
#![tactic(auto)]

ghost use Rattle.std.proofs.lemmas.Bool.{false≢true};
ghost use Rattle.records.specs.Kept.{nothing_kept};

use checking::check;
use clauses::LiteralSet;
use model::{Answer, Decline, Reference, Step};
use orders::by_number::ByNumber;
use records::Record;
use records::table::Table;
use search::settling::settle;
use search::{Frame, Mark};
use station::StationFile;
use texts::problems::variables_of;

// Keeps nothing and has no end, as the silent record does, and counts the steps that are put. It is a record of its own, since one around the silent record
// would have each of these methods too, as a call of the other's.
#[derive(Drop)]
struct Counted {
    steps: u64,
}

impl Record for Counted {
    ghost over = { λ _ _. Unit {0} };

    ghost stays = { λ _. tt };

    ghost joins = { λ _ _ _ _ _. tt };

    ghost meaning = { λ _. nothing_kept };

    ghost limits = { λ _ k. absurd (false≢true k) };

    fn put(&mut self, _step: Step) -> Result<(), Decline> {
        self.steps = self.steps.saturating_add(1);
        Ok(())
    }

    fn left(&self) -> Option<usize> {
        None
    }

    fn count(&self) -> usize {
        0
    }

    fn look(&self, _k: usize) -> Option<Step> {
        None
    }
}

// How a file was settled, or its argument checked: 0 declined, 1 fits, 2 cannot; and in how many steps. C reads the answer, so that it is a number.
#[repr(C)]
#[derive(Drop)]
pub struct Outcome {
    pub answer: u32,
    pub steps: u64,
}

// A file with the clauses of a text; without any where the text is declined.
fn file_of(text: &[u8]) -> StationFile {
    let mut file = StationFile::new();
    if let Some(n) = variables_of(text) {
        let _ = file.start(n, 1);
        let _ = file.read(text);
    }
    file
}

// Reads a text so many times, each time into a fresh file, and answers how many clauses it has.
#[unsafe(no_mangle)]
pub extern "C" fn tallowspan_read(text: &[u8], times: u32) -> u32 {
    let mut clauses = 0u32;
    for _ in 0..times {
        clauses = file_of(text).clauses();
    }
    clauses
}

// The order by number, the sheet and the memory that a file is settled in, made once for all its turns.
#[derive(Drop)]
struct Room {
    order: ByNumber,
    sheet: [u8; 200],
    trail: [Mark; 200],
    frames: [Frame; 200],
}

impl Room {
    fn of(file: &StationFile) -> Room {
        Room {
            order: ByNumber::new(u32::from(file.variables())),
            sheet: [0; 200],
            trail: [Mark::blank(); 200],
            frames: [Frame::blank(); 200],
        }
    }

    fn settle<R: Record>(&mut self, file: &StationFile, record: &mut R) -> Result<Answer, Decline> {
        settle(
            file,
            &self.order,
            record,
            &mut self.sheet,
            &mut self.trail,
            &mut self.frames,
        )
    }
}

// Settles a file so many times, with the order by number, and answers the last outcome.
fn settled(file: &StationFile, times: u32) -> Outcome {
    let mut room = Room::of(file);
    let mut outcome = Outcome {
        answer: 0,
        steps: 0,
    };
    for _ in 0..times {
        let mut record = Counted { steps: 0 };
        outcome.answer = match room.settle(file, &mut record) {
            Err(_) => 0,
            Ok(Answer::Fits) => 1,
            Ok(Answer::Cannot(_)) => 2,
        };
        outcome.steps = record.steps;
    }
    outcome
}

// Reads a text once and settles it so many times.
#[unsafe(no_mangle)]
pub extern "C" fn tallowspan_settle(text: &[u8], times: u32, outcome: &mut Outcome) {
    *outcome = settled(&file_of(text), times);
}

// Checks an argument so many times, and answers the last outcome.
fn checked(
    file: &StationFile,
    times: u32,
    table: &Table<'_>,
    closing: Reference,
    memory: &mut [LiteralSet],
) -> Outcome {
    let mut outcome = Outcome {
        answer: 0,
        steps: table.count() as u64,
    };
    for _ in 0..times {
        outcome.answer = match check(file, table, closing, memory) {
            Err(_) => 0,
            Ok(()) => 2,
        };
    }
    outcome
}

// Reads a text and settles it once, into a table of 2,000 steps, and checks the argument so many times.
#[unsafe(no_mangle)]
pub extern "C" fn tallowspan_check(text: &[u8], times: u32, outcome: &mut Outcome) {
    let file = file_of(text);
    let mut places = [Step {
        left: Reference::R(0),
        right: Reference::R(0),
        variable: 0,
    }; 2_000];
    let mut memory = [LiteralSet::empty(); 2_000];
    let mut table = Table::new(&mut places);
    if let Ok(Answer::Cannot(closing)) = Room::of(&file).settle(&file, &mut table) {
        *outcome = checked(&file, times, &table, closing, &mut memory);
    }
}
