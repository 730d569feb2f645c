// The search: clauses that force a literal, choices of the order, and resolution steps on the way back, by two stacks over lent memory.
#![tactic(auto)]

ghost use Rattle.std.specs.Prelude.{◌≤◌, length};
ghost use Rattle.station.specs.Views.{machine};

use clauses::{Literal, LiteralSet};
use model::Reference;
use scan::settings::Settings;
use station::StationFile;

mod backward;
mod forward;
mod moves;
pub mod settling;
mod stacks;

// Why a literal is set: the clause of this number forces it; it was chosen, on; or off, after the on side failed.
#[derive(Clone, Copy)]
pub enum Why {
    Clause(u32),
    On,
    Off,
}

// A setting made: an entry of the trail.
#[derive(Clone, Copy)]
pub struct Mark {
    literal: Literal,
    why: Why,
}

// A clause that a branch failed with, under its reference. The frame of an open branch is the one that its on side failed with.
#[derive(Clone, Copy)]
pub struct Frame {
    by: Reference,
    clause: LiteralSet,
}

// A stack over places that are lent to it: the search has no heap, and `settle` declines memory that is too short.
#[derive(Drop)]
struct Stack<'a, T: Copy> {
    places: &'a mut [T],
    height: usize,
    ghost within: { height ≤ length places.now },
}

// Where the search stands: what every variable is set to, the trail of settings made, the frames of the branches open, and how many steps were
// made (the largest number stands for all beyond it). Each call says that the file stays and that the record is the same one (`file`, `tied`): facts of two
// states, which no invariant can hold. The record is no part of it, since an argument is read from it when the search is over.
// `Going` and `Stuck` are said of machine, record and position, and not of a `State`, since lemmas speak of them where none stands.
#[derive(Drop)]
struct State<'m> {
    file: &'m StationFile,
    settings: Settings,
    trail: Stack<'m, Mark>,
    frames: Stack<'m, Frame>,
    made: u32,
    ghost trail_places: { (machine file.now).variables ≤ length trail.places.now },
    ghost frames_places: { (machine file.now).variables ≤ length frames.places.now },
}

// A failing clause was taken back past one setting: the search still fails, or goes on with the other side of a choice.
#[derive(Clone, Copy)]
enum Turn {
    Failing,
    Turned,
}
