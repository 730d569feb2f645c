// One turn of the search: the rules of docs/search.md in their order.
ghost use Rattle.std.specs.Prelude.{◌≡◌, ℕ};
ghost use Rattle.model.specs.Clauses.{Clause, on};
ghost use Rattle.model.specs.Search.{AllFalse, First, Chosen};
ghost use Rattle.clauses.specs.Sets.{code};
ghost use Rattle.search.specs.States.{position, machine_of, Run, Going, Advanced, Ran};

use super::moves::frame_of;
use super::{State, Turn, Why};
use clauses::Literal;
use model::{Answer, Decline};
use orders::Order;
use records::Record;
use scan::Scan;
use scan::scans::scan;

impl State<'_> {
    // The variable that the order chooses, on.
    fn chosen<O: Order>(&self, order: &O) -> Literal
        requires { (k : ℕ) × Chosen (position self.now).settings (O.Order.meaning order.now).list k }
        ensures { (k : ℕ) × (code result ≡ on k) × Chosen (position self.now).settings (O.Order.meaning order.now).list k }
    {
        let k = order.choose(self.settings.bytes()).unwrap();
        Literal::try_from(i32::from(k)).unwrap()
    }

    // Goes back from a setting at which the clause numbered k is false.
    fn clash<R: Record>(&mut self, record: &mut R, k: u32) -> Result<Option<Answer>, Decline>
        requires first { (C : Clause) × First (AllFalse (position self.old).settings) (machine_of self.old).clauses k C }
        requires going { (run : Run) × Going run (machine_of self.old) (R.Record.meaning «record».old) (position self.old) }
        ensures file { machine_of self.new ≡ machine_of self.old }
        ensures tied { R.Record.over «record».old «record».new }
        ensures advanced { (run : Run) → Going run (machine_of self.old) (R.Record.meaning «record».old) (position self.old)
            → Advanced run (machine_of self.old) (position self.old) (R.Record.meaning «record».new) (position self.new) result }
    {
        let mut failure = frame_of(self.file, k);
        match self.unwind(record, &mut failure)? {
            Turn::Turned => Ok(None),
            Turn::Failing => Ok(Some(Answer::Cannot(failure.by))),
        }
    }

    // One turn, and the answer if the search ends with it.
    fn advance<O: Order, R: Record>(
        &mut self,
        order: &O,
        record: &mut R,
    ) -> Result<Option<Answer>, Decline>
        requires size { (O.Order.meaning order.now).size ≡ (machine_of self.old).variables }
        requires going { (run : Run) × Going run (machine_of self.old) (R.Record.meaning «record».old) (position self.old) }
        ensures file { machine_of self.new ≡ machine_of self.old }
        ensures tied { R.Record.over «record».old «record».new }
        ensures advanced { (run : Run) → run.order ≡ (O.Order.meaning order.now).list → Going run (machine_of self.old) (R.Record.meaning «record».old) (position self.old)
            → Advanced run (machine_of self.old) (position self.old) (R.Record.meaning «record».new) (position self.new) result }
    {
        match scan(self.file, &self.settings) {
            Scan::Conflict(k) => self.clash(record, k),
            Scan::Forced(k, t) => {
                self.set(t, Why::Clause(k));
                Ok(None)
            }
            Scan::Satisfied => Ok(Some(Answer::Fits)),
            Scan::Undecided => {
                let t = self.chosen(order);
                self.set(t, Why::On);
                Ok(None)
            }
        }
    }

    // Turn after turn until the search fits, or fails with nothing set.
    pub(crate) fn run<O: Order, R: Record>(
        &mut self,
        order: &O,
        record: &mut R,
    ) -> Result<Answer, Decline>
        requires size { (O.Order.meaning order.now).size ≡ (machine_of self.old).variables }
        requires going { (run : Run) × (run.order ≡ (O.Order.meaning order.now).list) × Going run (machine_of self.old) (R.Record.meaning «record».old) (position self.old) }
        ensures tied { R.Record.over «record».old «record».new }
        ensures ran { (run : Run) → run.order ≡ (O.Order.meaning order.now).list → Going run (machine_of self.old) (R.Record.meaning «record».old) (position self.old)
            → Ran run (machine_of self.old) (R.Record.meaning «record».new) (position self.new) result }
    {
        loop {
            if let Some(answer) = self.advance(order, record)? {
                return Ok(answer);
            }
        }
    }
}
