// How the faults of the layers word, text and file stand inside each other, and what a fault says.
ghost use Rattle.std.specs.Prelude.{◌≡◌};
ghost use Rattle.model.specs.declared.TextFault.TheVariants.{InWord};
ghost use Rattle.model.specs.declared.ReadFault.TheVariants.{InText, InFile};
ghost use Rattle.model.specs.Faults.{fault_number, fault_place, fault_layer};

use super::{FileFault, Layer, ReadFault, TextFault, WordFault};

impl From<WordFault> for TextFault {
    ghost from_gives = { λ e r. r ≡ InWord e };

    fn from(e: WordFault) -> TextFault {
        TextFault::InWord(e)
    }
}

impl From<TextFault> for ReadFault {
    ghost from_gives = { λ e r. r ≡ InText e };

    fn from(e: TextFault) -> ReadFault {
        ReadFault::InText(e)
    }
}

impl From<FileFault> for ReadFault {
    ghost from_gives = { λ e r. r ≡ InFile e };

    fn from(e: FileFault) -> ReadFault {
        ReadFault::InFile(e)
    }
}

impl ReadFault {
    // The number under which docs/declines.md lists the cause: 20 to 23, or the file's own. By a method, as `Decline::number`.
    pub fn number(&self) -> u8
        ensures { result ≡ fault_number self.now }
    {
        match *self {
            ReadFault::InText(TextFault::InWord(_)) => 20,
            ReadFault::InText(TextFault::Problem(_)) => 21,
            ReadFault::InText(TextFault::Variables(_)) => 22,
            ReadFault::InText(TextFault::Clauses(_)) => 23,
            ReadFault::InFile(f) => f.decline.number(),
        }
    }

    // How many bytes stand before the fault.
    pub fn place(&self) -> usize
        ensures { result ≡ fault_place self.now }
    {
        match *self {
            ReadFault::InText(TextFault::InWord(w)) => w.place,
            ReadFault::InText(
                TextFault::Problem(at) | TextFault::Variables(at) | TextFault::Clauses(at),
            ) => at,
            ReadFault::InFile(f) => f.place,
        }
    }

    pub fn layer(&self) -> Layer
        ensures { result ≡ fault_layer self.now }
    {
        match *self {
            ReadFault::InText(TextFault::InWord(_)) => Layer::Word,
            ReadFault::InText(_) => Layer::Text,
            ReadFault::InFile(_) => Layer::File,
        }
    }
}
