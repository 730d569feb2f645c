// The words and lines of a text, put into a sink.
ghost use Rattle.std.specs.Prelude.{[], ◌∷◌, ◌++◌};
ghost use Rattle.model.specs.Writing.{literal_texts, head_line, text_of};
ghost use Rattle.station.specs.Views.{machine};
ghost use Rattle.writing.specs.Sinks.{Puts};

use super::sinks::Sink;
use itoa::{Buffer, Integer};
use station::StationFile;

fn number<S: Sink, I: Integer>(sink: &mut S, n: I)
    ensures { Puts S.Sink.took sink.old (I.Integer.text n) sink.new }
{
    sink.put(Buffer::new().format(n).as_bytes());
}

// The line of a clause: each literal and a blank, then 0.
fn clause<S: Sink>(sink: &mut S, literals: &[i32])
    ensures { Puts S.Sink.took sink.old (literal_texts literals.now ++ (48 ∷ (10 ∷ []))) sink.new }
{
    for t in literals {
        number(sink, *t);
        sink.put(b" ");
    }
    sink.put(b"0\n");
}

fn problem_line<S: Sink>(sink: &mut S, variables: u32, clauses: u32)
    ensures { Puts S.Sink.took sink.old (head_line variables clauses ++ (10 ∷ [])) sink.new }
{
    sink.put(b"p cnf ");
    number(sink, variables);
    sink.put(b" ");
    number(sink, clauses);
    sink.put(b"\n");
}

// The whole text of a file.
pub(crate) fn text<S: Sink>(sink: &mut S, file: &StationFile)
    ensures { Puts S.Sink.took sink.old (text_of (machine file.now)) sink.new }
{
    problem_line(sink, u32::from(file.variables()), file.clauses());
    for literals in file.iter() {
        clause(sink, literals);
    }
}
