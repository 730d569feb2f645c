// Settling a file.
ghost use Rattle.std.specs.Prelude.{◌≡◌, ◌≤◌, false, [], ◌∷◌, length, ℤ, pos};
ghost use Rattle.model.specs.Settling.{settle_refusal, written, Settles, Worth};
ghost use Rattle.model.specs.Arguments.{unset};
ghost use Rattle.model.specs.declared.Reference.TheVariants.{R};
ghost use Rattle.clauses.specs.Sets.{code, member};
ghost use Rattle.search.specs.declared.Why.TheVariants.{Off};
ghost use Rattle.station.specs.Views.{machine};
ghost use Rattle.search.specs.States.{position, machine_of, Refuses};

use super::{Frame, Mark, Stack, State, Why};
use clauses::{Literal, LiteralSet};
use model::{Answer, Decline, Reference};
use orders::Order;
use records::Record;
use scan::settings::Settings;
use station::StationFile;

// The checks of `settle`, in their order.
fn refusal<O: Order, R: Record>(
    file: &StationFile,
    order: &O,
    record: &R,
    sheet: usize,
    trail: usize,
    frames: usize,
) -> Result<(), Decline>
    ensures { Refuses (settle_refusal (machine file.now) (O.Order.meaning order.now) (R.Record.meaning «record».now) sheet (trail ∷ frames ∷ [])) result }
{
    let n = usize::from(file.started()?);
    if order.size() as usize != n {
        return Err(Decline::OtherSize);
    }
    if sheet < n || trail < n || frames < n {
        return Err(Decline::FewPlaces);
    }
    if record.count() != 0 {
        return Err(Decline::RecordUsed);
    }
    Ok(())
}

// 1 for on and 0 for off and unset, into the first places of the sheet. The sheet is bytes, 1 and 0, as the call that was asked for has it.
fn write(settings: &[u8], sheet: &mut [u8])
    requires { length settings.now ≤ length sheet.old }
    ensures { sheet.new ≡ written settings.now sheet.old }
{
    // by place: a proof learns nothing of what is written through a zip over `iter_mut` (tried)
    for (i, setting) in settings.iter().enumerate() {
        sheet[i] = u8::from(*setting == 1);
    }
}

impl<'m> State<'m> {
    // The search before its first turn: nothing is set.
    fn start(file: &'m StationFile, trail: &'m mut [Mark], frames: &'m mut [Frame]) -> State<'m>
        requires trail { (machine file.now).variables ≤ length trail.old }
        requires frames { (machine file.now).variables ≤ length frames.old }
        ensures file { machine_of result ≡ machine file.now }
        ensures position { position result ≡ record { settings = unset (machine file.now).variables; marks = []; frames = []; made = 0 } }
    {
        let settings = Settings::new(u16::from(file.variables()));
        let trail = Stack::over(trail);
        let frames = Stack::over(frames);
        State {
            file,
            settings,
            trail,
            frames,
            made: 0,
        }
    }
}

// Finds a valuation that satisfies every clause of the file, or the steps of an argument that none does: see docs/search.md.
// Six parameters and no struct of them: that is the call that the project asked for, and a refusal speaks of each length.
pub fn settle<O: Order, R: Record>(
    file: &StationFile,
    order: &O,
    record: &mut R,
    sheet: &mut [u8],
    trail: &mut [Mark],
    frames: &mut [Frame],
) -> Result<Answer, Decline>
    ensures tied { R.Record.over «record».old «record».new }
    ensures settles { Settles (machine file.now) (O.Order.meaning order.now) (R.Record.meaning «record».old) sheet.old (length trail.old ∷ length frames.old ∷ []) result (R.Record.meaning «record».new) sheet.new }
    ensures worth { Worth (machine file.now) result sheet.new }
{
    refusal(file, order, record, sheet.len(), trail.len(), frames.len())?;
    let mut state = State::start(file, trail, frames);
    let answer = state.run(order, record)?;
    if let Answer::Fits = answer {
        write(state.settings.bytes(), sheet);
    }
    Ok(answer)
}

impl Mark {
    // An entry to begin lent memory with.
    pub fn blank() -> Mark
        ensures literal { code result.literal ≡ pos 1 }
        ensures why { result.why ≡ Off }
    {
        Mark {
            literal: Literal::first(),
            why: Why::Off,
        }
    }
}

impl Frame {
    // An entry to begin lent memory with.
    pub fn blank() -> Frame
        ensures by { result.by ≡ R 0 }
        ensures clause { (u : ℤ) → member result.clause u ≡ false }
    {
        Frame {
            by: Reference::R(0),
            clause: LiteralSet::empty(),
        }
    }
}
