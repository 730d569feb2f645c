// A step in a line of 28 bytes. Written and read by functions, and by no `From`: neither Step nor [u8; 28] belongs to this crate.
ghost use Rattle.std.specs.Prelude.{◌≡◌, ◌%◌, length};
ghost use Rattle.records.specs.Line.{digits, number, word, named, line, said};

use model::{Reference, Step};

// As many digits of n, from the last one back, as there are places.
fn write_number(places: &mut [u8], n: u32)
    ensures { places.new ≡ digits (length places.old) n }
{
    let mut rest = n;
    // by index: of what a loop over iter_mut().rev() writes, a proof knows the length and nothing else
    for i in (0..places.len()).rev() {
        places[i] = b'0' + (rest % 10) as u8;
        rest /= 10;
    }
}

fn write_reference(reference: Reference) -> [u8; 11]
    ensures written { result ≡ word reference }
    ensures read_back { named result ≡ reference }
{
    let (letter, n) = match reference {
        Reference::R(n) => (b'R', n),
        Reference::S(n) => (b'S', n),
    };
    let mut bytes = [letter; 11];
    write_number(&mut bytes[1..], n);
    bytes
}

pub(crate) fn write(step: Step) -> [u8; 28]
    ensures written { result ≡ line step }
    ensures read_back { said result ≡ step }
{
    let mut bytes = [b' '; 28];
    bytes[..11].copy_from_slice(&write_reference(step.left));
    bytes[12..23].copy_from_slice(&write_reference(step.right));
    write_number(&mut bytes[24..27], u32::from(step.variable));
    bytes[27] = b'\n';
    bytes
}

// The number that digits write, in 32 bits.
fn read_number(bytes: &[u8]) -> u32
    ensures { result ≡ number 0 bytes.now % 4294967296 }
{
    bytes.iter().fold(0, |n: u32, byte| {
        n.wrapping_mul(10)
            .wrapping_add(u32::from(byte.saturating_sub(b'0')))
    })
}

// A reference, and the byte after it.
fn read_reference(bytes: &[u8; 12]) -> Reference
    ensures { result ≡ named bytes.now }
{
    let n = read_number(&bytes[1..11]);
    if bytes[0] == b'R' {
        Reference::R(n)
    } else {
        Reference::S(n)
    }
}

pub(crate) fn read(bytes: &[u8; 28]) -> Step
    ensures { result ≡ said bytes.now }
{
    let (references, rest) = bytes.as_chunks::<12>();
    let variable = read_number(&rest[..3]);
    Step {
        left: read_reference(&references[0]),
        right: read_reference(&references[1]),
        variable: (variable % 256) as u8,
    }
}
